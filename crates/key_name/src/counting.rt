//! Comparisons of names that are counted.
ghost use Rattle.std.specs.Prelude.{◌≡◌, ◌+◌};
ghost use Rattle.model_names.specs.Order.{name_cmp};

use crate::KeyName;
use std::cmp::Ordering;
use std::sync::ledger::Ledger;
use step_count::{Steps, compare_counted};

impl KeyName {
    /// Compares two names in name order, which is a step.
    pub fn compare_counted<L: Ledger>(&self, other: &KeyName, steps: &mut Steps<L>) -> Ordering
        ensures order { result ≡ name_cmp self.now other.now }
        ensures step { steps.new ≡ steps.old + 1 }
    {
        compare_counted(self, other, steps)
    }
}
