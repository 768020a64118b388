//! What there is to tell of some commits.
ghost use Rattle.std.specs.Prelude.{◌≡◌, ◌+◌, ◌<◌, ◌^◌, ◌++◌, ◌∷◌, [], IfOk, OnOk, length, map};
ghost use Rattle.commit_log.specs.CommitView.{change_of, commit_of};
ghost use Rattle.watch_feed.specs.News.{news_from, news_in};

use crate::Changed;
use commit_log::{Change, Commit};
use key_meta::Memory;
use key_name::KeyName;
use plugin_chain::is_within;
use std::alloc::Global;

/// The changes of the commits behind a front, at or below a parent.
pub fn news_behind(
    alloc: Global,
    commits: &[Commit],
    front: u64,
    parent: &KeyName,
) -> Result<Vec<Changed>, Memory>
    requires { front + length commits.now < 2 ^ 64 }
    ensures { IfOk result (λ told. told.items ≡ news_from parent.now (front + 1) (map commit_of commits.now)) }
{
    let mut told = Vec::new(alloc);
    let mut number = front;
    for commit in commits {
        number += 1;
        tell(&mut told, number, commit.changes.as_slice(), parent)?;
    }
    Ok(told)
}

/// Tells the changes of the commit of a number.
fn tell(
    told: &mut Vec<Changed>,
    number: u64,
    changes: &[Change],
    parent: &KeyName,
) -> Result<(), Memory>
    ensures { OnOk result (told.new.items ≡ told.old.items ++ news_in parent.now number (map change_of changes.now)) }
{
    for change in changes {
        tell_one(told, number, change, parent)?;
    }
    Ok(())
}

/// Tells a change, if it is one at or below the parent.
fn tell_one(
    told: &mut Vec<Changed>,
    number: u64,
    change: &Change,
    parent: &KeyName,
) -> Result<(), Memory>
    ensures { OnOk result (told.new.items ≡ told.old.items ++ news_in parent.now number (change_of change.now ∷ [])) }
{
    if !is_within(parent, &change.name)? {
        return Ok(());
    }
    let name = change.name.copy()?;
    let removed = change.entry.is_none();
    told.push(Changed {
        number,
        name,
        removed,
    })?;
    Ok(())
}
