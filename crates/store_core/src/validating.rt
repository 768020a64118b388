//! Which rules a set of keys breaks, by the matcher of an open store.
ghost use Rattle.std.specs.Prelude.{◌≤◌, IfOk};
ghost use Rattle.kdb_outside.specs.Faults.{HasRisen};
ghost use Rattle.model_specified.specs.Violations.{AreViolations, is_within};
ghost use Rattle.store_core.specs.Frames.{IsUnwritten};

use crate::Core;
use kdb_outside::Disk;
use key_meta::{List, Memory};
use key_name::KeyName;
use key_set::KeySet;
use plugin_chain::{Violation, violations};
use regex_check::Patterns;

impl<D: Disk, P: Patterns + Drop> Core<D, P> {
    /// All violations of a set at or below a name, under the set's own specifications. Nothing is kept of it but the
    /// matcher's count.
    pub fn violations(&mut self, keys: &KeySet, at: &KeyName) -> Result<List<Violation>, Memory>
        ensures all { IfOk result (AreViolations (HasRisen (P.refusals self.old.patterns) (P.refusals self.new.patterns)) (is_within at.now) keys.now) }
        ensures later { P.refusals self.old.patterns ≤ P.refusals self.new.patterns }
        ensures same { IsUnwritten self.old self.new }
    {
        violations(&mut self.patterns, keys, at)
    }
}
