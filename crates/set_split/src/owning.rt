//! The keys that one mount owns.
ghost use Rattle.std.specs.Prelude.{◌≡◌, ◌<◌, IfOk, OnOk, length};
ghost use Rattle.std.specs.FinMap as map;
ghost use Rattle.std.specs.List.Sorted.{IsStrictlySortedBy};
ghost use Rattle.key_set.specs.EntryView.{entry_of};
ghost use Rattle.model_maps.specs.KeyMap.{not_below};
ghost use Rattle.model_names.specs.Order.{name_cmp};
ghost use Rattle.set_split.specs.Involved.{owns};
ghost use Rattle.set_split.specs.Parts.{owned_by};

use key_meta::Memory;
use key_name::{KeyName, owner};
use key_set::{Entry, KeySet};

/// As many keys as stand in one chunk. Cut out of it, they would be copied all.
const FEW: usize = 64;

/// The keys that the mount of this number owns: those at its point or below it, and not at or below a point behind it.
/// Of a set of few keys they are copied; else they are shared with the set, until one of the two changes.
pub fn owned(points: &[KeyName], i: usize, keys: &KeySet) -> Result<KeySet, Memory>
    requires { IsStrictlySortedBy name_cmp points.now }
    ensures { IfOk result (λ owned. owned ≡ owned_by points.now i keys.now) }
{
    if i >= points.len() {
        return Ok(KeySet::new(keys.allocator()));
    }
    if keys.len() <= FEW {
        return gathered(points, i, keys);
    }
    let mut owned = keys.below(&points[i])?;
    let behind = &points[i + 1..];
    for other in behind {
        // the points below this one stand together behind it
        if !other.is_below_or_same(&points[i]) {
            return Ok(owned);
        }
        take_out(&mut owned, other)?;
    }
    Ok(owned)
}

/// Takes out the keys at or below a point.
fn take_out(keys: &mut KeySet, point: &KeyName) -> Result<(), Memory>
    ensures { OnOk result (keys.new ≡ not_below point.now keys.old) }
{
    let _taken = keys.cut(point)?;
    Ok(())
}

/// The same, as copies.
fn gathered(points: &[KeyName], i: usize, keys: &KeySet) -> Result<KeySet, Memory>
    requires order { IsStrictlySortedBy name_cmp points.now }
    requires within { i < length points.now }
    ensures { IfOk result (λ owned. owned ≡ owned_by points.now i keys.now) }
{
    let mut owned = KeySet::new(keys.allocator());
    for (name, entry) in keys.iter() {
        if owns(points, i, name) {
            put(&mut owned, name, entry)?;
        }
    }
    Ok(owned)
}

/// Whether the mount of this number owns a name. Most names are not below its point, and then no other is looked at.
fn owns(points: &[KeyName], i: usize, name: &KeyName) -> bool
    requires order { IsStrictlySortedBy name_cmp points.now }
    requires within { i < length points.now }
    ensures { result ≡ owns points.now i name.now }
{
    if !name.is_below_or_same(&points[i]) {
        return false;
    }
    owner(points, name) == Some(i)
}

/// Puts a copy of a key.
fn put(keys: &mut KeySet, name: &KeyName, entry: &Entry) -> Result<(), Memory>
    ensures { OnOk result (keys.new ≡ map.insert keys.old name.now (entry_of entry.now)) }
{
    let _former = keys.append(name.copy()?, entry.copy()?)?;
    Ok(())
}
