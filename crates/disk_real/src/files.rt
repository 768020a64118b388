//! Whole reads and writes of an open file, and the sync of one.
ghost use Rattle.std.specs.Prelude.{◌≤◌, length, IfOk};

use std::fs::File;
use std::io;
use std::io::ErrorKind;
use std::os::unix::fs::FileExt;

/// Reads until the buffer is full or the file ends. A call that a signal interrupts is made again.
pub(crate) fn fill(file: &File, at: u64, buf: &mut [u8]) -> io::Result<usize>
    ensures { IfOk result (λ count. count ≤ length buf.old) }
{
    let mut filled = 0;
    for _ in 0..u64::MAX {
        match file.read_at(&mut buf[filled..], at.saturating_add(filled as u64)) {
            Ok(0) => break,
            Ok(count) => filled += count,
            Err(error) if error.kind() == ErrorKind::Interrupted => {}
            Err(error) => return Err(error),
        }
    }
    Ok(filled)
}

/// Writes the whole piece, or fails: also where a write takes nothing. A call that a signal interrupts is made again.
pub(crate) fn write_whole(file: &File, at: u64, piece: &[u8]) -> io::Result<()> {
    let mut done = 0;
    for _ in 0..u64::MAX {
        let left = &piece[done..];
        if left.is_empty() {
            return Ok(());
        }
        match file.write_at(left, at.saturating_add(done as u64)) {
            Ok(0) => break,
            Ok(count) => done += count,
            Err(error) if error.kind() == ErrorKind::Interrupted => {}
            Err(error) => return Err(error),
        }
    }
    Err(io::Error::from(ErrorKind::WriteZero))
}
