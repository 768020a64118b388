//! The mounts that a set of keys touches, and what it changes there.
ghost use Rattle.std.specs.Prelude.{◌≡◌, ◌<◌, ◌^◌, ℕ, All, IfOk, List, OnOk, filter, map as over};
ghost use Rattle.std.specs.FinMap as map;
ghost use Rattle.std.specs.Option.{option_or};
ghost use Rattle.model_history.specs.Changes.{change_at};
ghost use Rattle.model_maps.specs.KeyMap.{KeyMap};
ghost use Rattle.model_names.specs.Name.{Name};
ghost use Rattle.model_store.specs.Sets.{changes_at, kept};
ghost use Rattle.set_split.specs.Seen.{numbered};
ghost use Rattle.store_verdict.specs.RecordView.{record_of};
ghost use Rattle.store_verdict.specs.Touching.{differs_at};

use crate::walking::{Walk, add_first, is_under_way};
use crate::{ChangeSet, Record};
use key_meta::{List, Memory};
use key_set::KeySet;
use set_split::Part;
use std::alloc::Global;

/// The parts of the touched mounts: those whose keys are not the ones that the record keeps.
pub fn touched_parts(alloc: Global, rec: &Record, parts: List<Part>) -> Result<Vec<Part>, Memory>
    ensures { IfOk result (λ touched. numbered touched.items ≡ filter (differs_at (record_of rec.now)) (numbered parts)) }
{
    let mut touched = Vec::new(alloc);
    for part in parts.into_vec() {
        if differs(rec, &part) {
            touched.push(part)?;
        }
    }
    Ok(touched)
}

/// Whether a part is not what the record keeps of its mount.
fn differs(rec: &Record, part: &Part) -> bool
    ensures { result ≡ differs_at (record_of rec.now) (part.now.mount, part.now.keys) }
{
    match rec.kept(part.mount) {
        Some(kept) => part.keys != *kept,
        None => part.keys.len() != 0,
    }
}

/// The numbers of the mounts of some parts.
pub fn numbers_of(alloc: Global, parts: &[Part]) -> Result<List<u32>, Memory>
    requires { All (λ part. part.mount < 2 ^ 32) parts.now }
    ensures { IfOk result (λ numbers. numbers ≡ over (λ part. part.mount) parts.now) }
{
    let mut numbers = Vec::with_capacity(alloc, parts.len())?;
    for part in parts {
        numbers.push(part.mount as u32)?;
    }
    Ok(List::from_vec(numbers))
}

/// What leads from what the record keeps to the parts. Of two mounts with a change of one name the last one's stays.
pub fn changes_of(alloc: Global, rec: &Record, touched: &[Part]) -> Result<ChangeSet, Memory>
    ensures { IfOk result (λ changes. (mounts : List ℕ) (wanted : ℕ → KeyMap) → numbered touched.now ≡ over (λ m. (m, wanted m)) mounts → changes ≡ changes_at (kept (record_of rec.now)) wanted mounts) }
{
    let mut changes = ChangeSet::new(alloc);
    for part in touched {
        add_part(&mut changes, rec, part)?;
    }
    Ok(changes)
}

/// Adds what leads from what the record keeps of a mount to its part.
fn add_part(changes: &mut ChangeSet, rec: &Record, part: &Part) -> Result<(), Memory>
    ensures { OnOk result ((q : Name) → map.get changes.new q ≡ option_or (change_at (kept (record_of rec.now) part.now.mount) part.now.keys q) (map.get changes.old q)) }
{
    match rec.kept(part.mount) {
        Some(kept) => add_difference(changes, kept, &part.keys),
        None => add_difference(changes, &KeySet::new(part.keys.allocator()), &part.keys),
    }
}

/// Adds what leads from some keys to others.
fn add_difference(changes: &mut ChangeSet, before: &KeySet, wanted: &KeySet) -> Result<(), Memory>
    ensures { OnOk result ((q : Name) → map.get changes.new q ≡ option_or (change_at before.now wanted.now q) (map.get changes.old q)) }
{
    let mut had = Walk::new(before);
    let mut new = Walk::new(wanted);
    while is_under_way(&had, &new) {
        add_first(changes, &mut had, &mut new)?;
    }
    Ok(())
}
