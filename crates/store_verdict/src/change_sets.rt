//! Changes of different names, over one sorted vector. No contract speaks of the vector.
ghost use Rattle.std.specs.Prelude.{◌≡◌, IfOk, OnErr, OnOk, map as over};
ghost use Rattle.std.specs.FinMap as map;
ghost use Rattle.std.specs.Option.{option_map};
ghost use Rattle.key_set.specs.EntryView.{entry_of};
ghost use Rattle.model_history.specs.Changes.{after, changed, changed_by};
ghost use Rattle.commit_log.specs.CommitView.{change_of};

use commit_log::Change;
use key_meta::{List, Memory};
use key_name::KeyName;
use key_set::{Entry, KeySet};
use sorted_map::SortedMap;
use std::alloc::Global;
use std::marker::Model;

/// A new entry for each of some names, or none where the key is removed.
#[derive(Drop)]
pub struct ChangeSet {
    changes: SortedMap<KeyName, Option<Entry>>,
}

impl Model for ChangeSet {
    ghost use Rattle.model_history.specs.Changes.{Changes};
    ghost use Rattle.store_verdict.specs.Changing.{changes_in, coded_changes};

    ghost Value = { Changes };

    ghost coded = { coded_changes };

    ghost view = { λ s. changes_in s.changes };
}

impl ChangeSet {
    /// No changes.
    pub fn new(alloc: Global) -> ChangeSet
        ensures { result ≡ map.empty }
    {
        ChangeSet {
            changes: SortedMap::new(alloc),
        }
    }

    /// Gives a name a change, in place of the one that it had.
    pub fn put(&mut self, name: KeyName, entry: Option<Entry>) -> Result<(), Memory>
        ensures ok { OnOk result (self.new ≡ map.insert self.old name (option_map entry_of entry)) }
        ensures err { OnErr result (self.new ≡ self.old) }
    {
        let _former = self.changes.insert(name, entry)?;
        Ok(())
    }

    /// The changes, in name order.
    pub(crate) fn entries(&self) -> &[(KeyName, Option<Entry>)]
        ensures { over (λ change. (change.0, option_map entry_of change.1)) result.now ≡ map.entries self.now }
    {
        self.changes.entries()
    }

    /// A copy of some keys, with the changes made in it.
    pub fn applied(&self, keys: &KeySet) -> Result<KeySet, Memory>
        ensures { IfOk result (λ made. made ≡ after keys.now self.now) }
    {
        let mut made = keys.copy()?;
        make_all(&mut made, self.entries())?;
        Ok(made)
    }

    /// A copy of the changes, in name order.
    pub fn list(&self, alloc: Global) -> Result<List<Change>, Memory>
        ensures { IfOk result (λ changes. over change_of changes ≡ map.entries self.now) }
    {
        let changes = copy_of_changes(alloc, self.entries())?;
        Ok(List::from_vec(changes))
    }
}

/// Changes again, in memory of their own.
fn copy_of_changes(
    alloc: Global,
    changes: &[(KeyName, Option<Entry>)],
) -> Result<Vec<Change>, Memory>
    ensures { IfOk result (λ copied. over change_of copied.items ≡ over (λ change. (change.0, option_map entry_of change.1)) changes.now) }
{
    let mut copied = Vec::with_capacity(alloc, changes.len())?;
    for change in changes {
        copied.push(copy_of_change(&change.0, &change.1)?)?;
    }
    Ok(copied)
}

/// A change again, in memory of its own.
fn copy_of_change(name: &KeyName, entry: &Option<Entry>) -> Result<Change, Memory>
    ensures { IfOk result (λ change. change_of change ≡ (name.now, option_map entry_of entry.now)) }
{
    let name = name.copy()?;
    match entry {
        Some(entry) => Ok(Change {
            name,
            entry: Some(entry.copy()?),
        }),
        None => Ok(Change { name, entry: None }),
    }
}

/// Makes some changes, one after the other.
fn make_all(keys: &mut KeySet, changes: &[(KeyName, Option<Entry>)]) -> Result<(), Memory>
    ensures { OnOk result (keys.new ≡ changed_by (over (λ change. (change.0, option_map entry_of change.1)) changes.now) keys.old) }
{
    for change in changes {
        make(keys, &change.0, &change.1)?;
    }
    Ok(())
}

/// Makes one change.
fn make(keys: &mut KeySet, name: &KeyName, entry: &Option<Entry>) -> Result<(), Memory>
    ensures { OnOk result (keys.new ≡ changed keys.old (name.now, option_map entry_of entry.now)) }
{
    match entry {
        Some(entry) => {
            keys.append(name.copy()?, entry.copy()?)?;
        }
        None => {
            keys.remove(name)?;
        }
    }
    Ok(())
}
