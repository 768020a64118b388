//! Which texts of a set are too long to be stored.
ghost use Rattle.std.specs.Prelude.{◌≡◌, if◌then◌else◌, MatchResult, None};
ghost use Rattle.std.specs.FinMap as map;
ghost use Rattle.std.specs.List.{list_any};
ghost use Rattle.std.specs.List.Sorted.{IsStrictlySortedBy};
ghost use Rattle.std.specs.Option.{option_map};
ghost use Rattle.key_set.specs.EntryView.{entry_of};
ghost use Rattle.model_names.specs.Order.{name_cmp};
ghost use Rattle.general_words.specs.Searches.{first_some};
ghost use Rattle.set_split.specs.Involved.{owns};
ghost use Rattle.mounted_files.specs.Setting.{first_long_in, if_long, long_text};
ghost use Rattle.store_verdict.specs.Filing.{IsTold, long_told};

use crate::PrepareFault;
use key_meta::{LONGEST_VALUE, Meta};
use key_name::{KeyName, owner};
use key_set::{Entry, KeySet};
use mount_table::MountTable;

/// The first text that is too long is refused, of the keys that some mounts own.
pub fn refuse_long_texts(
    table: &MountTable,
    mounts: &[usize],
    keys: &KeySet,
) -> Result<(), PrepareFault>
    ensures { MatchResult result (λ _. long_told table.now mounts.now keys.now ≡ None) (IsTold table.now (long_told table.now mounts.now keys.now)) }
{
    match first_long(table.points(), mounts, keys) {
        Some((key, bytes)) => Err(PrepareFault::ValueTooLong {
            key: key.copy()?,
            bytes,
        }),
        None => Ok(()),
    }
}

/// The first key, of those that some mounts own, with a text that is too long, and its length.
fn first_long<'a>(
    points: &[KeyName],
    mounts: &[usize],
    keys: &'a KeySet,
) -> Option<(&'a KeyName, u64)>
    requires { IsStrictlySortedBy name_cmp points.now }
    ensures { option_map (λ found. (found.0.now, found.1)) result ≡ first_long_in points.now mounts.now keys.now }
{
    for (name, entry) in keys.iter() {
        if let Some(bytes) = long_text_if_owned(points, mounts, name, entry) {
            return Some((name, bytes));
        }
    }
    None
}

/// The length of the first text of an entry that is too long, where one of some mounts owns the name.
fn long_text_if_owned(
    points: &[KeyName],
    mounts: &[usize],
    name: &KeyName,
    entry: &Entry,
) -> Option<u64>
    requires { IsStrictlySortedBy name_cmp points.now }
    ensures { result
        ≡ (if list_any (λ i. owns points.now i name.now) mounts.now then long_text (entry_of entry.now) else None) }
{
    // the owner is looked for among all points, and few texts are too long
    let Some(bytes) = long_text(entry) else {
        return None;
    };
    if is_owned(points, mounts, name) {
        Some(bytes)
    } else {
        None
    }
}

/// Whether one of some mounts owns a name.
fn is_owned(points: &[KeyName], mounts: &[usize], name: &KeyName) -> bool
    requires { IsStrictlySortedBy name_cmp points.now }
    ensures { result ≡ list_any (λ i. owns points.now i name.now) mounts.now }
{
    let owner = owner(points, name);
    for mount in mounts {
        if owner == Some(*mount) {
            return true;
        }
    }
    false
}

/// The length of the first text of an entry that is too long.
fn long_text(entry: &Entry) -> Option<u64>
    ensures { result ≡ long_text (entry_of entry.now) }
{
    match if_long(entry.value.as_str()) {
        Some(bytes) => Some(bytes),
        None => long_meta(&entry.meta),
    }
}

/// The length of the first metadata text that is too long.
fn long_meta(meta: &Meta) -> Option<u64>
    ensures { result ≡ first_some if_long (map.values meta.now) }
{
    for (_, text) in meta.iter() {
        if let Some(bytes) = if_long(text) {
            return Some(bytes);
        }
    }
    None
}

/// The length of a text that is too long.
fn if_long(text: &str) -> Option<u64>
    ensures { result ≡ if_long text.now }
{
    if text.len() > LONGEST_VALUE {
        Some(text.len() as u64)
    } else {
        None
    }
}
