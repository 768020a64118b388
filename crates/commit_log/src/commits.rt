//! What one commit is.
ghost use Rattle.std.specs.Prelude.{◌≡◌};
ghost use Rattle.general_words.specs.Saturated.{saturated};
ghost use Rattle.model_history.specs.History.{changes_beside, changes_name, is_among, weight_of_commit};
ghost use Rattle.commit_log.specs.CommitView.{commit_of};

use crate::weighing::weight_of;
use key_meta::List;
use key_name::KeyName;
use key_set::Entry;

/// A name with its new entry, or with none where the key is removed.
#[derive(Drop)]
pub struct Change {
    pub name: KeyName,
    pub entry: Option<Entry>,
}

/// What a handle stored at once: the mounts that it touched, by their numbers, and what it changed.
#[derive(Drop)]
pub struct Commit {
    pub handle: u32,
    pub touched: List<u32>,
    pub changes: List<Change>,
}

impl Commit {
    /// What the commit weighs in its history. A weight beyond the type's end is given as its last value.
    pub fn weight(&self) -> u64
        ensures { result ≡ saturated (weight_of_commit (commit_of self.now)) }
    {
        weight_of(self)
    }
}

/// Whether a mount is one of these.
pub fn is_among(touched: &[u32], mount: usize) -> bool
    ensures { result ≡ is_among touched.now mount }
{
    for other in touched {
        if mount == *other as usize {
            return true;
        }
    }
    false
}

/// Whether another handle made a commit that changes a name.
pub fn changes_beside(commit: &Commit, name: &KeyName, not_by: u32) -> bool
    ensures { result ≡ changes_beside name.now not_by (commit_of commit.now) }
{
    commit.handle != not_by && changes_name(commit, name)
}

/// Whether a commit changes a name.
fn changes_name(commit: &Commit, name: &KeyName) -> bool
    ensures { result ≡ changes_name name.now (commit_of commit.now) }
{
    for change in commit.changes.as_slice() {
        if *name == change.name {
            return true;
        }
    }
    false
}
