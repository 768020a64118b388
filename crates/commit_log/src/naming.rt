//! The index of commits by the names that they change.
ghost use Rattle.std.specs.Prelude.{◌≡◌, ◌+◌, ◌<◌, ◌^◌, ◌++◌, [], ◌∷◌, OnOk, if◌then◌else◌, length, map};
ghost use Rattle.model_names.specs.Name.{Name};
ghost use Rattle.model_names.specs.Order.{name_eq};
ghost use Rattle.commit_log.specs.CommitView.{change_of, commit_of};
ghost use Rattle.commit_log.specs.Naming.{AreRising, first_mark, marks_at, marks_in, marks_of};

use crate::{Change, Commit};
use key_meta::Memory;
use key_name::KeyName;
use std::alloc::Global;
use std::collections::BTreeMap;

/// What commits left at the names that they change: their numbers, and the handles that made them.
pub type Names = BTreeMap<KeyName, Vec<(u64, u32)>>;

/// The number of the first mark behind a front that another handle left. It looks at the marks behind the front alone.
pub fn first_mark(names: &Names, name: &KeyName, front: u64, not_by: u32) -> Option<u64>
    requires { AreRising (marks_at names.now name.now) }
    ensures { result ≡ first_mark (marks_at names.now name.now) front not_by }
{
    match names.get(name) {
        Some(marks) => first_among(marks, front, not_by),
        None => None,
    }
}

/// The same of the marks of one name.
fn first_among(marks: &[(u64, u32)], front: u64, not_by: u32) -> Option<u64>
    requires { AreRising marks.now }
    ensures { result ≡ first_mark marks.now front not_by }
{
    let mut first = None;
    let mut left = marks.len();
    while left > 0 && front < marks[left - 1].0 {
        left -= 1;
        if marks[left].1 != not_by {
            first = Some(marks[left].0);
        }
    }
    first
}

/// Leaves marks of some commits, the first of which has a number.
pub fn note_commits(
    alloc: Global,
    names: &mut Names,
    commits: &[Commit],
    first: u64,
) -> Result<(), Memory>
    requires { first + length commits.now < 2 ^ 64 }
    ensures { OnOk result ((name : Name) → marks_at names.new name ≡ marks_at names.old name ++ marks_in name first (map commit_of commits.now)) }
{
    for i in 0..commits.len() {
        let commit = &commits[i];
        let mark = (first + i as u64, commit.handle);
        note_changes(alloc, names, commit.changes.as_slice(), mark)?;
    }
    Ok(())
}

/// Leaves a mark at the names of some changes.
fn note_changes(
    alloc: Global,
    names: &mut Names,
    changes: &[Change],
    mark: (u64, u32),
) -> Result<(), Memory>
    ensures { OnOk result ((name : Name) → marks_at names.new name ≡ marks_at names.old name ++ marks_of name mark (map change_of changes.now)) }
{
    for change in changes {
        note(alloc, names, &change.name, mark)?;
    }
    Ok(())
}

/// Leaves a mark at a name.
fn note(alloc: Global, names: &mut Names, name: &KeyName, mark: (u64, u32)) -> Result<(), Memory>
    ensures { OnOk result ((other : Name) → marks_at names.new other ≡ (if name_eq other name.now then marks_at names.old other ++ mark ∷ [] else marks_at names.old other)) }
{
    if let Some(marks) = names.get_mut(name) {
        marks.push(mark)?;
        return Ok(());
    }
    let mut marks = Vec::new(alloc);
    marks.push(mark)?;
    names.insert(name.copy()?, marks)?;
    Ok(())
}
