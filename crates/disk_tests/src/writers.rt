//! Writers by examples.

use kdb_outside::{Failed, Sink, WriterSink};
use std::io::{self, ErrorKind, Write};
use std::test::Fail;

/// Takes one byte a call and a `|` at each flush until its room is full, and is interrupted at every second write.
#[derive(Drop)]
struct Narrow<'a> {
    taken: &'a mut Vec<u8>,
    room: usize,
    is_interrupted: bool,
}

impl Write for Narrow<'_> {
    fn write(&mut self, buf: &[u8]) -> io::Result<usize> {
        self.is_interrupted = !self.is_interrupted;
        if self.is_interrupted {
            return Err(io::Error::from(ErrorKind::Interrupted));
        }
        match buf.first() {
            Some(byte) if self.taken.len() < self.room => {
                self.taken.push(*byte)?;
                Ok(1)
            }
            _ => Ok(0),
        }
    }

    fn flush(&mut self) -> io::Result<()> {
        if self.taken.len() < self.room {
            self.taken.push(b'|')?;
            return Ok(());
        }
        Err(io::Error::from(ErrorKind::StorageFull))
    }
}

/// How many pieces go through, in turn, and how many do not.
fn counts<S: Sink>(sink: &mut S, pieces: &[&[u8]]) -> (u32, u32) {
    let mut gone = 0u32;
    let mut failed = 0u32;
    for piece in pieces {
        match sink.put(piece) {
            Ok(()) => gone = gone.saturating_add(1),
            Err(Failed) => failed = failed.saturating_add(1),
        }
    }
    (gone, failed)
}

#[test]
fn flushes_each_piece_and_fails_at_a_full_writer(rt: HostRuntime) -> Result<(), Fail> {
    let mut taken = Vec::new(rt.alloc());
    let mut sink = WriterSink::new(Narrow {
        taken: &mut taken,
        room: 8,
        is_interrupted: false,
    });
    // There is room for two of the last piece's three bytes, and then for no flush.
    let told = counts(&mut sink, &[b"ab", b"", b"c", b"def", b""]);
    drop(sink);
    assert_eq!(rt; told, (3, 2));
    assert_eq!(rt; taken.as_slice(), b"ab||c|de".as_slice());
    Ok(())
}
