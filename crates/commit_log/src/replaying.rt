//! Makes changes of keys: those of commits, or some.
ghost use Rattle.std.specs.Prelude.{◌≡◌, ◌<◌, ℕ, OnErr, OnOk, length, map, take};
ghost use Rattle.model_history.specs.Changes.{changed, changed_by};
ghost use Rattle.model_history.specs.History.{replay};
ghost use Rattle.commit_log.specs.CommitView.{change_of, commit_of};

use crate::{Change, Commit};
use key_meta::Memory;
use key_set::KeySet;

/// Makes the changes of some commits, one after the other.
pub fn make_commits(keys: &mut KeySet, commits: &[Commit]) -> Result<(), Memory>
    ensures { OnOk result (keys.new ≡ replay keys.old (map commit_of commits.now)) }
{
    for commit in commits {
        make_changes(keys, commit.changes.as_slice())?;
    }
    Ok(())
}

/// Makes some changes, one after the other. Where memory is wanting, those before the one that wanted it have been
/// made.
pub fn make_changes(keys: &mut KeySet, changes: &[Change]) -> Result<(), Memory>
    ensures ok { OnOk result (keys.new ≡ changed_by (map change_of changes.now) keys.old) }
    ensures err { OnErr result ((made : ℕ) × (made < length changes.now) × (keys.new ≡ changed_by (map change_of (take made changes.now)) keys.old)) }
{
    for change in changes {
        make(keys, change)?;
    }
    Ok(())
}

/// Makes one change.
fn make(keys: &mut KeySet, change: &Change) -> Result<(), Memory>
    ensures ok { OnOk result (keys.new ≡ changed keys.old (change_of change.now)) }
    ensures err { OnErr result (keys.new ≡ keys.old) }
{
    match &change.entry {
        Some(entry) => {
            keys.append(change.name.copy()?, entry.copy()?)?;
        }
        None => {
            keys.remove(&change.name)?;
        }
    }
    Ok(())
}
