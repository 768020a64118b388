//! Input from a reader of the system.
ghost use Rattle.std.specs.Prelude.{◌≡◌, ◌≤◌, length, None, IfOk};
ghost use Rattle.std.specs.Io.KnownBytes.{ReadConsumes};
ghost use Rattle.kdb_outside.specs.Faults.{HasCause};
ghost use Rattle.kdb_outside.specs.Edge.{CountsFault};

use crate::counts::FaultCount;
use crate::{Failed, Source};
use std::io::{ErrorKind, Read};
use std::marker::Model;

/// A source over any reader. A call that a signal interrupts is made again, and every other error is a fault.
#[derive(Drop)]
pub struct ReaderSource<R> {
    reader: R,
    faults: FaultCount,
}

impl<R> Model for ReaderSource<R> {
    ghost use Rattle.kdb_outside.specs.Edge.{Edge};

    ghost Value = { Edge R };

    ghost view = { λ s. record { inner = s.reader; faults = s.faults } };
}

impl<R> ReaderSource<R> {
    pub fn new(reader: R) -> ReaderSource<R>
        ensures { result ≡ record { inner = reader; faults = 0 } }
    {
        ReaderSource {
            reader,
            faults: FaultCount::new(),
        }
    }
}

impl<R: Read> Source for ReaderSource<R> {
    ghost left = { λ _. None };

    ghost faults = { λ edge. edge.faults };

    fn take(&mut self, buf: &mut [u8]) -> Result<usize, Failed>
        ensures bytes { ReadConsumes (R.remaining self.old.inner) (R.remaining self.new.inner) result buf.new }
        ensures counted { CountsFault self.old.faults self.new.faults result }

        ensures within { IfOk result (λ n. n ≤ length buf.old) }
        ensures cause { HasCause self.old.faults self.new.faults result }
        ensures later { self.old.faults ≤ self.new.faults }
    {
        for _ in 0..u64::MAX {
            match self.reader.read(buf) {
                Ok(count) => return Ok(count),
                Err(error) if error.kind() == ErrorKind::Interrupted => {}
                Err(_) => break,
            }
        }
        Err(self.faults.fail())
    }
}
