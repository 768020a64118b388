//! What a set of keys at a parent wants, against what a record keeps.
ghost use Rattle.std.specs.Prelude.{◌≤◌, IfOk, length};
ghost use Rattle.key_name.specs.Owner.{IsPoints};
ghost use Rattle.store_verdict.specs.RecordView.{record_of};
ghost use Rattle.store_verdict.specs.Wanting.{IsWanted};

use crate::touching::{changes_of, numbers_of, touched_parts};
use crate::{ChangeSet, Record};
use key_meta::{List, Memory};
use key_name::KeyName;
use key_set::KeySet;
use set_split::{Part, split};
use std::alloc::Global;

/// What a set of keys touches and changes.
#[derive(Drop)]
pub struct Wanted {
    /// The touched mounts, ascending.
    pub touched: List<u32>,
    /// What is wanted for each of them.
    pub parts: List<Part>,
    pub changes: ChangeSet,
    /// How many keys no involved mount owns.
    pub aside: u64,
}

/// What a set of keys at a parent touches and changes.
pub fn wanted_of(
    alloc: Global,
    points: &[KeyName],
    rec: &Record,
    parent: &KeyName,
    keys: &KeySet,
) -> Result<Wanted, Memory>
    requires points { IsPoints points.now }
    requires few { length points.now ≤ 64 }
    ensures { IfOk result (IsWanted points.now (record_of rec.now) parent.now keys.now) }
{
    let split = split(alloc, points, parent, keys)?;
    let parts = touched_parts(alloc, rec, split.parts)?;
    let touched = numbers_of(alloc, &parts)?;
    let changes = changes_of(alloc, rec, &parts)?;
    Ok(Wanted {
        touched,
        parts: List::from_vec(parts),
        changes,
        aside: split.aside,
    })
}
