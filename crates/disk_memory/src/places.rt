//! Pieces of bytes at a place.
ghost use Rattle.std.specs.Prelude.{◌≡◌, ◌+◌, ◌≤◌, length, drop, OnOk, OnErr};
ghost use Rattle.kdb_outside.specs.Bytes.{Fills};
ghost use Rattle.kdb_outside.specs.Files.{written};

use kdb_outside::Memory;

/// Fills the buffer from the place `at` as far as both reach, and answers how many bytes.
pub(crate) fn fill(bytes: &[u8], at: usize, buf: &mut [u8]) -> usize
    ensures { Fills (drop at bytes.now) buf.old buf.new result }
{
    let left = &bytes[at.min(bytes.len())..];
    let count = left.len().min(buf.len());
    buf[..count].copy_from_slice(&left[..count]);
    count
}

/// Writes a piece over the bytes at a place, and past their end. At an error they are as they were.
pub(crate) fn write(bytes: &mut Vec<u8>, at: usize, piece: &[u8]) -> Result<(), Memory>
    requires { at ≤ length bytes.old.items }
    ensures ok { OnOk result (bytes.new.items ≡ written bytes.old.items at piece.now) }
    ensures err { OnErr result (bytes.new.items ≡ bytes.old.items) }
{
    let inside = piece.len().min(bytes.len() - at);
    bytes.extend_from_slice(&piece[inside..])?;
    write_inside(bytes, at, &piece[..inside]);
    Ok(())
}

/// Writes a piece over the bytes at a place that has room for it.
fn write_inside(bytes: &mut [u8], at: usize, piece: &[u8])
    requires { at + length piece.now ≤ length bytes.old }
    ensures { bytes.new ≡ written bytes.old at piece.now }
{
    bytes[at..at + piece.len()].copy_from_slice(piece);
}
