//! The inverse of a commit.
ghost use Rattle.std.specs.Prelude.{◌≡◌, IfErr, IfOk, map as over};
ghost use Rattle.std.specs.FinMap as map;
ghost use Rattle.commit_log.specs.CommitView.{change_of};
ghost use Rattle.model_undo.specs.Undoing.{turned_back};
ghost use Rattle.commit_undo.specs.Inverting.{IsInverse, IsRefusal};

use crate::InverseFault;
use crate::overtaking::{first_with, names_of};
use commit_log::{Change, History};
use key_meta::{List, Memory};
use key_name::KeyName;
use key_set::KeySet;
use std::alloc::Global;

/// The inverse of the commit of a number, in a history that began with some keys: for each of its changes, in their
/// order, the name with what stood there before the commit.
pub fn inverse(
    alloc: Global,
    history: &History,
    start: &KeySet,
    number: u64,
) -> Result<List<Change>, InverseFault>
    ensures ok { IfOk result (IsInverse start.now history.now.commits number) }
    ensures err { IfErr result (IsRefusal history.now.commits number) }
{
    let front = history.len();
    let Some(commit) = history.commit(number) else {
        return Err(InverseFault::NoCommit { number, front });
    };
    let names = names_of(alloc, commit.changes.as_slice())?;
    if let Some((by, name)) = first_with(&names, history.behind(0), number as usize) {
        let name = name.copy()?;
        return Err(InverseFault::Overtaken { name, by, front });
    }
    let before = history.replay(start, number - 1)?;
    Ok(turned_back(alloc, &before, commit.changes.as_slice())?)
}

/// Some changes turned back to what keys have there.
fn turned_back(alloc: Global, before: &KeySet, changes: &[Change]) -> Result<List<Change>, Memory>
    ensures { IfOk result (λ back. over change_of back ≡ over (turned_back before.now) (over change_of changes.now)) }
{
    let mut back = Vec::with_capacity(alloc, changes.len())?;
    for change in changes {
        back.push(change_to(before, &change.name)?)?;
    }
    Ok(List::from_vec(back))
}

/// The change of a name to what keys have there.
fn change_to(before: &KeySet, name: &KeyName) -> Result<Change, Memory>
    ensures { IfOk result (λ change. change_of change ≡ (name.now, map.get before.now name.now)) }
{
    let copied = name.copy()?;
    match before.lookup(name) {
        Some(entry) => Ok(Change {
            name: copied,
            entry: Some(entry.copy()?),
        }),
        None => Ok(Change {
            name: copied,
            entry: None,
        }),
    }
}
