//! Which keys of a file its mount owns.
ghost use Rattle.std.specs.Prelude.{◌≡◌, IfOk};
ghost use Rattle.std.specs.List.Sorted.{IsStrictlySortedBy};
ghost use Rattle.model_names.specs.Order.{name_cmp};
ghost use Rattle.set_split.specs.Involved.{owns};
ghost use Rattle.set_split.specs.Parts.{owned_by};
ghost use Rattle.mounted_files.specs.Owned.{not_owned_by};
ghost use Rattle.mounted_files.specs.declared.files.FileState.TheVariants.{Good};

use crate::FileState;
use crate::adding::put;
use key_meta::Memory;
use key_name::{KeyName, owner};
use key_set::KeySet;
use set_split::owned;
use std::alloc::Global;

/// The state of a file with these keys: those that the mount of this number owns are visible, and the others are its
/// shadow.
pub fn good_state(
    alloc: Global,
    points: &[KeyName],
    i: usize,
    keys: &KeySet,
) -> Result<FileState, Memory>
    requires { IsStrictlySortedBy name_cmp points.now }
    ensures { IfOk result (λ state. state ≡ Good (owned_by points.now i keys.now) (not_owned_by points.now i keys.now)) }
{
    let visible = owned(points, i, keys)?;
    let shadow = not_owned(alloc, points, i, keys, &visible)?;
    Ok(FileState::Good { visible, shadow })
}

/// A copy of the keys that the mount of this number doesn't own, given those that it owns. Mostly it owns all, and then
/// none is looked at.
fn not_owned(
    alloc: Global,
    points: &[KeyName],
    i: usize,
    keys: &KeySet,
    visible: &KeySet,
) -> Result<KeySet, Memory>
    requires order { IsStrictlySortedBy name_cmp points.now }
    requires visible { visible.now ≡ owned_by points.now i keys.now }
    ensures { IfOk result (λ shadow. shadow ≡ not_owned_by points.now i keys.now) }
{
    if visible.len() == keys.len() {
        return Ok(KeySet::new(alloc));
    }
    let mut shadow = KeySet::new(alloc);
    for (name, entry) in keys.iter() {
        if !owns(points, i, name) {
            put(&mut shadow, name.copy()?, entry)?;
        }
    }
    Ok(shadow)
}

/// Whether the mount of this number owns a name.
fn owns(points: &[KeyName], i: usize, name: &KeyName) -> bool
    requires { IsStrictlySortedBy name_cmp points.now }
    ensures { result ≡ owns points.now i name.now }
{
    owner(points, name) == Some(i)
}
