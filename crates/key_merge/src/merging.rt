//! The merge: one walk over the three sets in name order, over a copy of ours.
ghost use Rattle.std.specs.Prelude.{◌≡◌, IfErr, IfOk, OnOk};
ghost use Rattle.std.specs.Option.{option_map};
ghost use Rattle.key_set.specs.EntryView.{entry_of};
ghost use Rattle.key_merge.specs.Merging.{IsMerged};
ghost use Rattle.key_merge.specs.Refusing.{RefusesMerge};
ghost use Rattle.key_merge.specs.Walk.{keys_with, names_with, with_entry, is_told as told};
ghost use Rattle.key_merge.specs.declared.merging.Merge3Fault.TheVariants.{Memory as OutOfMemory};

use crate::Strategy;
use crate::choices::{Choice, choose, takes_their};
use crate::walks::{Entries, Walk};
use key_meta::{List, Memory};
use key_name::KeyName;
use key_set::{Entry, KeySet};
use std::alloc::AllocError;

/// Why there is no merged set.
#[derive(Drop)]
pub enum Merge3Fault {
    /// Both sides changed these keys, and not alike.
    Conflicts { names: List<KeyName> },
    Memory,
}

impl From<AllocError> for Merge3Fault {
    ghost from_gives = { λ _ fault. fault ≡ OutOfMemory };

    fn from(_: AllocError) -> Merge3Fault {
        Merge3Fault::Memory
    }
}

/// The keys so far: ours, with those of the other side set that the names up to here take from there.
#[derive(Drop)]
struct Merging {
    strategy: Strategy,
    keys: KeySet,
    conflicts: Vec<KeyName>,
}

/// Merges two sets that come from one base: each name by itself, with its value and metadata as one thing.
pub fn merge3(
    base: &KeySet,
    our: &KeySet,
    their: &KeySet,
    strategy: Strategy,
) -> Result<KeySet, Merge3Fault>
    ensures merged { IfOk result (λ keys. IsMerged strategy base.now our.now their.now keys) }
    ensures conflicts { IfErr result (RefusesMerge strategy base.now our.now their.now) }
{
    let mut merging = Merging {
        strategy,
        keys: our.copy()?,
        conflicts: Vec::new(our.allocator()),
    };
    let mut walk = Walk::new(base, our, their);
    while let Some(name) = walk.name() {
        let entries = walk.take(name);
        merging.add(name, &entries)?;
    }
    if merging.conflicts.as_slice().is_empty() {
        Ok(merging.keys)
    } else {
        Err(Merge3Fault::Conflicts {
            names: List::from_vec(merging.conflicts),
        })
    }
}

impl Merging {
    /// Merges a name that the sets have these entries at.
    fn add(&mut self, name: &KeyName, entries: &Entries) -> Result<(), Memory>
        ensures strategy { self.new.strategy ≡ self.old.strategy }
        ensures keys { OnOk result (self.new.keys ≡ keys_with self.old.strategy name.now (option_map (λ e. entry_of e.now) entries.now.base) (option_map (λ e. entry_of e.now) entries.now.our) (option_map (λ e. entry_of e.now) entries.now.their) self.old.keys) }
        ensures names { OnOk result (self.new.conflicts.items ≡ names_with self.old.strategy name.now (option_map (λ e. entry_of e.now) entries.now.base) (option_map (λ e. entry_of e.now) entries.now.our) (option_map (λ e. entry_of e.now) entries.now.their) self.old.conflicts.items) }
    {
        let choice = choose(entries.base, entries.our, entries.their);
        if takes_their(choice, self.strategy) {
            return put(&mut self.keys, name, entries.their);
        }
        if is_told(choice, self.strategy) {
            self.conflicts.push(name.copy()?)?;
        }
        Ok(())
    }
}

/// Whether a choice is told: a conflict under abort.
fn is_told(choice: Choice, strategy: Strategy) -> bool
    ensures { result ≡ told strategy choice }
{
    matches!((choice, strategy), (Choice::Conflict, Strategy::Abort))
}

/// Gives a name an entry, or takes it out.
fn put(keys: &mut KeySet, name: &KeyName, entry: Option<&Entry>) -> Result<(), Memory>
    ensures ok { OnOk result (keys.new ≡ with_entry name.now (option_map (λ e. entry_of e.now) entry.entry) keys.old) }
{
    match entry {
        Some(entry) => {
            keys.append(name.copy()?, entry.copy()?)?;
        }
        None => {
            keys.remove(name)?;
        }
    }
    Ok(())
}
