//! What commits weigh.
ghost use Rattle.std.specs.Prelude.{◌≡◌, sum_by};
ghost use Rattle.std.specs.Option.{option_map};
ghost use Rattle.general_words.specs.Saturated.{saturated};
ghost use Rattle.key_set.specs.EntryView.{entry_of};
ghost use Rattle.model_history.specs.History.{entry_bytes, weight_of_change, weight_of_commit};
ghost use Rattle.commit_log.specs.CommitView.{change_of, commit_of};

use crate::{Change, Commit};
use key_set::Entry;

/// What a change weighs beside its texts.
const CHANGE_WEIGHT: u64 = 16;

/// What a commit weighs beside its changes.
const COMMIT_WEIGHT: u64 = 64;

/// The most that a history may weigh.
pub const HEAVIEST_HISTORY: u64 = 67108864;

/// What a commit weighs. A weight beyond the type's end is given as its last value.
pub fn weight_of(commit: &Commit) -> u64
    ensures { result ≡ saturated (weight_of_commit (commit_of commit.now)) }
{
    COMMIT_WEIGHT.saturating_add(weight_of_all(commit.changes.as_slice()))
}

/// What some changes weigh together.
fn weight_of_all(changes: &[Change]) -> u64
    ensures { result ≡ saturated (sum_by (λ change. weight_of_change (change_of change)) changes.now) }
{
    let mut weight: u64 = 0;
    for change in changes {
        weight = weight.saturating_add(weight_of_one(change));
    }
    weight
}

/// What one change weighs.
fn weight_of_one(change: &Change) -> u64
    ensures { result ≡ saturated (weight_of_change (change_of change.now)) }
{
    CHANGE_WEIGHT
        .saturating_add(change.name.text_bytes() as u64)
        .saturating_add(bytes_of(&change.entry))
}

/// How many bytes a new entry has.
fn bytes_of(entry: &Option<Entry>) -> u64
    ensures { result ≡ saturated (entry_bytes (option_map entry_of entry.now)) }
{
    match entry {
        Some(entry) => (entry.value.as_str().len() as u64).saturating_add(entry.meta.bytes()),
        None => 0,
    }
}
