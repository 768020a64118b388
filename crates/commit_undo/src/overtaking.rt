//! Which later commit changes a name of a commit. Its names are kept in name order, and each name of a later commit is
//! looked up in them once.
ghost use Rattle.std.specs.Prelude.{◌≡◌, ◌+◌, IfOk, drop, is_some, map as over};
ghost use Rattle.std.specs.FinMap.{find};
ghost use Rattle.std.specs.Option.{option_copied, option_map};
ghost use Rattle.commit_log.specs.CommitView.{change_of, commit_of};
ghost use Rattle.model_names.specs.Name.{Name};
ghost use Rattle.model_names.specs.Order.{name_cmp};
ghost use Rattle.model_undo.specs.Undoing.{first_name, first_with, is_changed};

use commit_log::{Change, Commit};
use key_meta::Memory;
use key_name::KeyName;
use sorted_map::SortedMap;
use std::alloc::Global;

/// The names of some changes.
pub fn names_of(alloc: Global, changes: &[Change]) -> Result<SortedMap<KeyName, ()>, Memory>
    ensures { IfOk result (λ names. (name : Name) → is_some (find name_cmp name names) ≡ is_changed (over change_of changes.now) name) }
{
    let mut names = SortedMap::new(alloc);
    for change in changes {
        let _former = names.insert(change.name.copy()?, ())?;
    }
    Ok(names)
}

/// The first commit behind a number that changes one of some names, and the first such name in it.
pub fn first_with<'a>(
    names: &SortedMap<KeyName, ()>,
    commits: &'a [Commit],
    number: usize,
) -> Option<(u64, &'a KeyName)>
    ensures { option_map (λ found. (found.0, found.1.now)) result
        ≡ first_with (λ name. is_some (find name_cmp name names.now)) (number + 1) (drop number (over commit_of commits.now)) }
{
    for i in number..commits.len() {
        if let Some(name) = first_name(names, commits[i].changes.as_slice()) {
            return Some((i as u64 + 1, name));
        }
    }
    None
}

/// The first name of some changes that is one of these.
fn first_name<'a>(names: &SortedMap<KeyName, ()>, changes: &'a [Change]) -> Option<&'a KeyName>
    ensures { option_copied result
        ≡ first_name (λ name. is_some (find name_cmp name names.now)) (over change_of changes.now) }
{
    for change in changes {
        if has(names, &change.name) {
            return Some(&change.name);
        }
    }
    None
}

/// Whether a name is one of these.
fn has(names: &SortedMap<KeyName, ()>, name: &KeyName) -> bool
    ensures { result ≡ is_some (find name_cmp name.now names.now) }
{
    names.get(name).is_some()
}
