//! Which keys are looked at.
ghost use Rattle.std.specs.Prelude.{◌≡◌, IfOk, nat_eq};
ghost use Rattle.std.specs.List.{list_any};
ghost use Rattle.std.specs.List.Sorted.{IsStrictlySortedBy};
ghost use Rattle.model_names.specs.Order.{name_cmp};
ghost use Rattle.model_specified.specs.Violations.{is_checked, is_owned, is_within};
ghost use Rattle.plugin_chain.specs.Owners.{is_below_at};

use crate::specifying::is_specified;
use key_meta::Memory;
use key_name::{KeyName, Namespace, owner};

/// Among so many points the owner of a name is found as fast as it is told that it is none of some.
const FEW: usize = 8;

/// Whether a key is checked, and stands at or below a name.
pub fn is_listed(at: &KeyName, name: &KeyName) -> Result<bool, Memory>
    ensures { IfOk result (λ is. is ≡ is_checked (is_within at.now) name.now) }
{
    if !is_specified(name.namespace()) {
        return Ok(false);
    }
    is_within(at, name)
}

/// Whether a key is checked, and one of some mounts owns it. The points of all mounts stand in name order.
pub fn is_touched(points: &[KeyName], mounts: &[u32], name: &KeyName) -> bool
    requires { IsStrictlySortedBy name_cmp points.now }
    ensures { result ≡ is_checked (is_owned points.now mounts.now) name.now }
{
    is_specified(name.namespace()) && is_owned(points, mounts, name)
}

/// Whether a name is another one or below it. A cascading one stands for its path in every namespace.
pub fn is_within(at: &KeyName, name: &KeyName) -> Result<bool, Memory>
    ensures { IfOk result (λ is. is ≡ is_within at.now name.now) }
{
    if name.is_below_or_same(at) {
        return Ok(true);
    }
    let path = name.with_namespace(Namespace::Cascading)?;
    Ok(path.is_below_or_same(at))
}

/// Whether one of some mounts owns a name.
fn is_owned(points: &[KeyName], mounts: &[u32], name: &KeyName) -> bool
    requires { IsStrictlySortedBy name_cmp points.now }
    ensures { result ≡ is_owned points.now mounts.now name.now }
{
    // the owner is looked for among all points: among many, most names are below none of these mounts
    if points.len() > FEW && !is_below_one(points, mounts, name) {
        return false;
    }
    match owner(points, name) {
        Some(owner) => is_among(mounts, owner),
        None => false,
    }
}

/// Whether a name is the point of one of some mounts or below it.
fn is_below_one(points: &[KeyName], mounts: &[u32], name: &KeyName) -> bool
    ensures { result ≡ list_any (is_below_at points.now name.now) mounts.now }
{
    for mount in mounts {
        if is_below_at(points, *mount as usize, name) {
            return true;
        }
    }
    false
}

/// Whether a name is the point of a mount or below it.
fn is_below_at(points: &[KeyName], mount: usize, name: &KeyName) -> bool
    ensures { result ≡ is_below_at points.now name.now mount }
{
    match points.get(mount) {
        Some(point) => name.is_below_or_same(point),
        None => false,
    }
}

fn is_among(mounts: &[u32], owner: usize) -> bool
    ensures { result ≡ list_any (nat_eq owner) mounts.now }
{
    for mount in mounts {
        if owner == *mount as usize {
            return true;
        }
    }
    false
}
