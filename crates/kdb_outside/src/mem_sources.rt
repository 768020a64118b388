//! Sources over bytes in memory.
ghost use Rattle.std.specs.Prelude.{◌≡◌, ◌≤◌, ◌↔◌, ℕ, List, length, drop, Some, IsOk, IsErr, IfOk, OnErr};
ghost use Rattle.kdb_outside.specs.Faults.{HasCause};
ghost use Rattle.kdb_outside.specs.Bytes.{Takes, Fills};
ghost use Rattle.kdb_outside.specs.Calls.{no_calls, IsNextListed};
ghost use Rattle.kdb_outside.specs.MemStream.{MemStream, after_move, after_failure};

use crate::calls::CountedCalls;
use crate::{Failed, Source};
use std::marker::Model;

/// A source over bytes in memory that never fails. Seen as the bytes that are left.
#[derive(Drop)]
pub struct SureSource {
    bytes: Vec<u8>,
    taken: usize,
}

impl Model for SureSource {
    ghost Value = { List ℕ };

    ghost view = { λ s. drop s.taken s.bytes.items };

    ghost invariant = { λ s. s.taken ≤ length s.bytes.items };
}

impl SureSource {
    pub fn new(bytes: Vec<u8>) -> SureSource
        ensures { result ≡ bytes.items }
    {
        SureSource { bytes, taken: 0 }
    }
}

impl Source for SureSource {
    ghost left = { λ bytes. Some bytes };

    ghost faults = { λ _. 0 };

    fn take(&mut self, buf: &mut [u8]) -> Result<usize, Failed>
        ensures sure { IsOk result }
        ensures filled { IfOk result (Fills self.old buf.old buf.new) }
        ensures rest { IfOk result (λ n. self.new ≡ drop n self.old) }

        ensures within { IfOk result (λ n. n ≤ length buf.old) }
        ensures taken { IfOk result (λ n. Takes self.old buf.old buf.new n (Some self.new)) }
    {
        let left = &self.bytes[self.taken..];
        let count = left.len().min(buf.len());
        buf[..count].copy_from_slice(&left[..count]);
        self.taken += count;
        Ok(count)
    }
}

/// A source over bytes in memory of which the listed calls fail. Calls are counted from 1.
#[derive(Drop)]
pub struct MemSource {
    source: SureSource,
    calls: CountedCalls,
}

impl Model for MemSource {
    ghost Value = { MemStream };

    ghost view = { λ s. record { bytes = s.source; calls = s.calls } };
}

impl MemSource {
    pub fn new(bytes: Vec<u8>, failing: Vec<u64>) -> MemSource
        ensures { result ≡ record { bytes = bytes.items; calls = no_calls failing.items } }
    {
        MemSource {
            source: SureSource::new(bytes),
            calls: CountedCalls::new(failing),
        }
    }
}

impl Source for MemSource {
    ghost left = { λ stream. Some stream.bytes };

    ghost faults = { λ stream. stream.calls.faults };

    fn take(&mut self, buf: &mut [u8]) -> Result<usize, Failed>
        ensures listed { IsErr result ↔ IsNextListed self.old.calls }
        ensures filled { IfOk result (Fills self.old.bytes buf.old buf.new) }
        ensures moved { IfOk result (λ n. self.new ≡ after_move (drop n self.old.bytes) self.old) }
        ensures failed { OnErr result (self.new ≡ after_failure self.old) }
        ensures untouched { OnErr result (buf.new ≡ buf.old) }

        ensures within { IfOk result (λ n. n ≤ length buf.old) }
        ensures taken { IfOk result (λ n. Takes self.old.bytes buf.old buf.new n (Some self.new.bytes)) }
        ensures cause { HasCause self.old.calls.faults self.new.calls.faults result }
        ensures later { self.old.calls.faults ≤ self.new.calls.faults }
    {
        self.calls.begin()?;
        self.source.take(buf)
    }
}
