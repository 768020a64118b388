//! How often something has failed.
ghost use Rattle.std.specs.Prelude.{◌≡◌, ◌≤◌, ℕ};
ghost use Rattle.kdb_outside.specs.Faults.{HasRisen};
ghost use Rattle.kdb_outside.specs.Calls.{next_count};

use crate::Failed;
use std::marker::Model;

/// A count of faults, seen as a number. At its type's end it stands still.
#[derive(Drop)]
pub(crate) struct FaultCount {
    count: u64,
}

impl Model for FaultCount {
    ghost Value = { ℕ };

    ghost view = { λ f. f.count };
}

impl FaultCount {
    pub(crate) fn new() -> FaultCount
        ensures { result ≡ 0 }
    {
        FaultCount { count: 0 }
    }

    /// Counts one more, and gives the answer of the call that failed.
    pub(crate) fn fail(&mut self) -> Failed
        ensures next { self.new ≡ next_count self.old }
        ensures cause { HasRisen self.old self.new }
        ensures later { self.old ≤ self.new }
    {
        self.count = self.count.saturating_add(1);
        Failed
    }
}
