//! The mounts that are involved in a parent.
ghost use Rattle.std.specs.Prelude.{◌≡◌, ◌<◌, IfOk, length, map};
ghost use Rattle.std.specs.List.{AllByRecursion, list_any};
ghost use Rattle.std.specs.List.Sorted.{IsStrictlySortedBy};
ghost use Rattle.model_names.specs.Order.{name_cmp};
ghost use Rattle.key_name.specs.Owner.{owner_of};
ghost use Rattle.key_name.specs.Owner.{IsPoints};
ghost use Rattle.set_split.specs.Involved.{involved_in, is_involved_at, roots_of};

use key_meta::{List, Memory};
use key_name::{KeyName, Namespace, owner};
use std::alloc::Global;

/// A name that a parent stands for, and the mount that owns it.
#[derive(Drop)]
struct Root {
    name: KeyName,
    owner: Option<usize>,
}

/// The numbers of the mounts that are involved in a parent, ascending: those that own the parent, and those whose point
/// is the parent or below it. A cascading parent stands for its path in each namespace whose keys stand in files.
pub fn involved(alloc: Global, points: &[KeyName], parent: &KeyName) -> Result<List<usize>, Memory>
    requires { IsPoints points.now }
    ensures { IfOk result (λ mounts. mounts ≡ involved_in points.now parent.now) }
{
    let roots = roots(alloc, points, parent)?;
    let mut mounts = Vec::new(alloc);
    for i in 0..points.len() {
        if is_involved(points, i, &roots) {
            mounts.push(i)?;
        }
    }
    Ok(List::from_vec(mounts))
}

/// The names that a parent stands for, with their owners.
fn roots(alloc: Global, points: &[KeyName], parent: &KeyName) -> Result<Vec<Root>, Memory>
    requires { IsStrictlySortedBy name_cmp points.now }
    ensures names { IfOk result (λ roots. map (λ root. root.name) roots.items ≡ roots_of parent.now) }
    ensures owners { IfOk result (λ roots. AllByRecursion (λ root. root.owner ≡ owner_of points.now root.name) roots.items) }
{
    let mut roots = Vec::with_capacity(alloc, 4)?;
    if parent.namespace() == Namespace::Cascading {
        roots.push(root_in(points, parent, Namespace::Spec)?)?;
        roots.push(root_in(points, parent, Namespace::Dir)?)?;
        roots.push(root_in(points, parent, Namespace::User)?)?;
        roots.push(root_in(points, parent, Namespace::System)?)?;
    } else {
        roots.push(root_in(points, parent, parent.namespace())?)?;
    }
    Ok(roots)
}

/// The path of a parent in a namespace, with its owner.
fn root_in(points: &[KeyName], parent: &KeyName, namespace: Namespace) -> Result<Root, Memory>
    requires { IsStrictlySortedBy name_cmp points.now }
    ensures name { IfOk result (λ root. root.name ≡ record { namespace = namespace; parts = parent.now.parts }) }
    ensures owner { IfOk result (λ root. root.owner ≡ owner_of points.now (record { namespace = namespace; parts = parent.now.parts })) }
{
    let name = parent.with_namespace(namespace)?;
    let owner = owner(points, &name);
    Ok(Root { name, owner })
}

/// Whether a mount owns one of some names, or its point is one of them or below one.
fn is_involved(points: &[KeyName], i: usize, roots: &[Root]) -> bool
    requires within { i < length points.now }
    requires owners { AllByRecursion (λ root. root.owner ≡ owner_of points.now root.name) roots.now }
    ensures { result ≡ list_any (is_involved_at points.now i) (map (λ root. root.name) roots.now) }
{
    for root in roots {
        if is_involved_at(points, i, root) {
            return true;
        }
    }
    false
}

/// Whether a mount owns a name, or its point is the name or below it.
fn is_involved_at(points: &[KeyName], i: usize, root: &Root) -> bool
    requires within { i < length points.now }
    requires owner { root.now.owner ≡ owner_of points.now root.now.name }
    ensures { result ≡ is_involved_at points.now i root.now.name }
{
    root.owner == Some(i) || points[i].is_below_or_same(&root.name)
}
