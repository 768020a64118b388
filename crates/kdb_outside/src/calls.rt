//! Calls that are counted from 1, of which the listed ones fail.
ghost use Rattle.std.specs.Prelude.{◌≡◌, ◌≤◌, ◌↔◌, IsErr, OnOk, OnErr};
ghost use Rattle.kdb_outside.specs.Faults.{HasRisen, HasCause};
ghost use Rattle.kdb_outside.specs.Calls.{Calls, next_count, no_calls, IsNextListed, after_call, after_fault};

use crate::Failed;
use crate::counts::FaultCount;
use std::marker::Model;

/// What was called so far, and which calls fail. The count of calls stands still at its type's end.
#[derive(Drop)]
pub(crate) struct CountedCalls {
    failing: Vec<u64>,
    made: u64,
    faults: FaultCount,
}

impl Model for CountedCalls {
    ghost Value = { Calls };

    ghost view = { λ c. record { failing = c.failing.items; made = c.made; faults = c.faults } };
}

impl CountedCalls {
    pub(crate) fn new(failing: Vec<u64>) -> CountedCalls
        ensures { result ≡ no_calls failing.items }
    {
        CountedCalls {
            failing,
            made: 0,
            faults: FaultCount::new(),
        }
    }

    /// Counts the call that begins, which fails at once if it is a listed one.
    pub(crate) fn begin(&mut self) -> Result<(), Failed>
        ensures listed { IsErr result ↔ IsNextListed self.old }
        ensures ok { OnOk result (self.new ≡ after_call self.old) }
        ensures err { OnErr result (self.new ≡ after_fault self.old) }
        ensures cause { HasCause self.old.faults self.new.faults result }
        ensures later { self.old.faults ≤ self.new.faults }
    {
        self.made = self.made.saturating_add(1);
        if self.failing.contains(&self.made) {
            return Err(self.faults.fail());
        }
        Ok(())
    }

    /// Counts a failure of the call that has begun.
    pub(crate) fn fail(&mut self) -> Failed
        ensures next { self.new ≡ record self.old { faults = next_count self.old.faults } }
        ensures cause { HasRisen self.old.faults self.new.faults }
        ensures later { self.old.faults ≤ self.new.faults }
    {
        self.faults.fail()
    }
}
