//! A sink over memory.
ghost use Rattle.std.specs.Prelude.{◌≡◌, ◌<◌, ◌≤◌, ◌⊎◌, [], ◌++◌, length, Some, IsErr, OnOk, OnErr};
ghost use Rattle.kdb_outside.specs.Faults.{HasCause};
ghost use Rattle.kdb_outside.specs.Bytes.{HoldsFront};
ghost use Rattle.kdb_outside.specs.Calls.{no_calls, IsNextListed};
ghost use Rattle.kdb_outside.specs.MemStream.{MemStream, after_move, after_failure};

use crate::calls::CountedCalls;
use crate::{Failed, Sink};
use std::alloc::Global;
use std::marker::Model;

/// A sink that holds its bytes in memory. The listed calls fail, counted from 1, and so does one that finds no memory.
#[derive(Drop)]
pub struct MemSink {
    bytes: Vec<u8>,
    calls: CountedCalls,
}

impl Model for MemSink {
    ghost Value = { MemStream };

    ghost view = { λ s. record { bytes = s.bytes.items; calls = s.calls } };
}

impl MemSink {
    pub fn new(alloc: Global, failing: Vec<u64>) -> MemSink
        ensures { result ≡ record { bytes = []; calls = no_calls failing.items } }
    {
        MemSink {
            bytes: Vec::new(alloc),
            calls: CountedCalls::new(failing),
        }
    }

    pub fn bytes(&self) -> &[u8]
        ensures { result.now ≡ self.now.bytes }
    {
        &self.bytes
    }
}

impl Sink for MemSink {
    ghost held = { λ stream. Some stream.bytes };

    ghost faults = { λ stream. stream.calls.faults };

    fn put(&mut self, bytes: &[u8]) -> Result<(), Failed>
        ensures listed { IsNextListed self.old.calls → IsErr result }
        ensures moved { OnOk result (self.new ≡ after_move (self.old.bytes ++ bytes.now) self.old) }
        ensures failed { OnErr result (self.new ≡ after_failure self.old) }
        ensures memory { OnErr result (IsNextListed self.old.calls ⊎ (0 < length bytes.now)) }

        ensures whole { OnOk result (Some self.new.bytes ≡ Some (self.old.bytes ++ bytes.now)) }
        ensures front { HoldsFront self.old.bytes bytes.now (Some self.new.bytes) }
        ensures cause { HasCause self.old.calls.faults self.new.calls.faults result }
        ensures later { self.old.calls.faults ≤ self.new.calls.faults }
    {
        self.calls.begin()?;
        match self.bytes.extend_from_slice(bytes) {
            Ok(()) => Ok(()),
            Err(_) => Err(self.calls.fail()),
        }
    }
}
