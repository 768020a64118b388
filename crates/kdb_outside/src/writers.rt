//! Output to a writer of the system.
ghost use Rattle.std.specs.Prelude.{◌≡◌, ◌≤◌, None, OnOk};
ghost use Rattle.std.specs.Io.KnownBytes.{Appends};
ghost use Rattle.kdb_outside.specs.Faults.{HasCause};
ghost use Rattle.kdb_outside.specs.Edge.{CountsFault, TakesFront};

use crate::counts::FaultCount;
use crate::{Failed, Sink};
use std::io;
use std::io::{ErrorKind, Write};
use std::marker::Model;

/// A sink over any writer, which is flushed after each piece. A write that a signal interrupts is made again, and every
/// other error is a fault, as is a write that takes nothing.
#[derive(Drop)]
pub struct WriterSink<W> {
    writer: W,
    faults: FaultCount,
}

impl<W> Model for WriterSink<W> {
    ghost use Rattle.kdb_outside.specs.Edge.{Edge};

    ghost Value = { Edge W };

    ghost view = { λ s. record { inner = s.writer; faults = s.faults } };
}

impl<W> WriterSink<W> {
    pub fn new(writer: W) -> WriterSink<W>
        ensures { result ≡ record { inner = writer; faults = 0 } }
    {
        WriterSink {
            writer,
            faults: FaultCount::new(),
        }
    }
}

impl<W: Write> Sink for WriterSink<W> {
    ghost held = { λ _. None };

    ghost faults = { λ edge. edge.faults };

    fn put(&mut self, bytes: &[u8]) -> Result<(), Failed>
        ensures written { OnOk result (Appends (W.contents self.old.inner) (W.contents self.new.inner) bytes.now) }
        ensures part { TakesFront (W.contents self.old.inner) (W.contents self.new.inner) bytes.now }
        ensures counted { CountsFault self.old.faults self.new.faults result }

        ensures cause { HasCause self.old.faults self.new.faults result }
        ensures later { self.old.faults ≤ self.new.faults }
    {
        match write_whole(&mut self.writer, bytes) {
            Ok(()) => Ok(()),
            Err(_) => Err(self.faults.fail()),
        }
    }
}

/// Writes a piece to its end, and flushes.
fn write_whole<W: Write>(writer: &mut W, piece: &[u8]) -> io::Result<()>
    ensures written { OnOk result (Appends (W.contents writer.old) (W.contents writer.new) piece.now) }
    ensures part { TakesFront (W.contents writer.old) (W.contents writer.new) piece.now }
{
    let mut left = piece;
    for _ in 0..u64::MAX {
        if left.is_empty() {
            return writer.flush();
        }
        match writer.write(left) {
            Ok(0) => break,
            Ok(count) => left = &left[count..],
            Err(error) if error.kind() == ErrorKind::Interrupted => {}
            Err(error) => return Err(error),
        }
    }
    Err(io::Error::from(ErrorKind::WriteZero))
}
