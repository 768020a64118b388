//! Lookups and insertions whose comparisons are counted. They make the search that `lookup` and `append` make.
ghost use Rattle.std.specs.Prelude.{◌≡◌, ℕ, ◌+◌, ◌-◌, ◌*◌, ◌^◌, ◌≤◌, length, IfOk, OnOk, OnErr};
ghost use Rattle.std.specs.Option.{option_map};
ghost use Rattle.std.specs.FinMap as map;
ghost use Rattle.key_set.specs.EntryView.{entry_of};

use crate::{Entry, KeySet};
use key_meta::Memory;
use key_name::KeyName;
use std::sync::ledger::Ledger;
use step_count::Steps;

impl KeySet {
    /// The entry of a name, as `lookup` gives it. Among n keys it takes s comparisons with 2^s ≤ 128 (2n + 1).
    pub fn lookup_counted<L: Ledger>(&self, name: &KeyName, steps: &mut Steps<L>) -> Option<&Entry>
        ensures found { option_map (λ entry. entry_of entry.now) result ≡ map.get self.now name.now }
        ensures more { steps.old ≤ steps.new }
        ensures cost { 2 ^ (steps.new - steps.old) ≤ 128 * (2 * length (map.entries self.now) + 1) }
    {
        self.keys.get_counted(name, steps)
    }

    /// Gives a name an entry, as `append` does. For n keys before the call it takes s comparisons
    /// with 2^s ≤ 128 (2n + 1).
    pub fn append_counted<L: Ledger>(
        &mut self,
        name: KeyName,
        entry: Entry,
        steps: &mut Steps<L>,
    ) -> Result<Option<Entry>, Memory>
        ensures former { IfOk result (λ former. option_map entry_of former ≡ map.get self.old name) }
        ensures ok { OnOk result (self.new ≡ map.insert self.old name (entry_of entry)) }
        ensures err { OnErr result (self.new ≡ self.old) }
        ensures more { steps.old ≤ steps.new }
        ensures cost { 2 ^ (steps.new - steps.old) ≤ 128 * (2 * length (map.entries self.old) + 1) }
    {
        self.keys.insert_counted(name, entry, steps)
    }
}

/// Of ten thousand keys each is found in 21 comparisons at most; where there are none, 7 tell so.
pub fn ten_thousand_keys_take_21_steps()
    ensures many { (steps keys : ℕ) → keys ≤ 10000 → 2 ^ steps ≤ 128 * (2 * keys + 1) → steps ≤ 21 }
    ensures none { (steps : ℕ) → 2 ^ steps ≤ 128 * (2 * 0 + 1) → steps ≤ 7 }
{}
