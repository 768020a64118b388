//! The violations of a set.
ghost use Rattle.std.specs.Prelude.{◌≡◌, ◌≤◌, IfOk, slice_get};
ghost use Rattle.std.specs.FinMap as finite;
ghost use Rattle.std.specs.List.Sorted.{IsStrictlySortedBy};
ghost use Rattle.kdb_outside.specs.Faults.{HasRisen};
ghost use Rattle.model_names.specs.Order.{name_cmp};
ghost use Rattle.model_specified.specs.Violations.{AreOfKeys, AreViolations, IsFirstViolation, is_owned, is_within};
ghost use Rattle.plugin_chain.specs.Steps.{IsFirstOf, checked};

use crate::checking::check_if;
use crate::choosing::{is_listed, is_touched};
use crate::defaults::with_defaults;
use crate::spec_index::SpecIndex;
use crate::spec_metas::spec_keys;
use key_meta::{List, Memory};
use key_name::KeyName;
use key_set::KeySet;
use model_specified::Violation;
use regex_check::{LastPattern, Patterns};

/// All violations of the specified set at or below a name, by key in order and for each key by rule. A cascading name
/// stands for its path in every namespace.
pub fn violations<P: Patterns>(
    patterns: &mut P,
    keys: &KeySet,
    at: &KeyName,
) -> Result<List<Violation>, Memory>
    ensures all { IfOk result (AreViolations (HasRisen (P.refusals patterns.old) (P.refusals patterns.new)) (is_within at.now) keys.now) }
    ensures later { P.refusals patterns.old ≤ P.refusals patterns.new }
{
    let specs = spec_keys(keys)?;
    let made = with_defaults(&specs, keys)?;
    let index = SpecIndex::new(&specs)?;
    let list = all_at(patterns, &index, &made, at)?;
    Ok(List::from_vec(list))
}

/// The violations of some keys at or below a name, as the keys of `spec:` have them.
fn all_at<P: Patterns>(
    patterns: &mut P,
    specs: &SpecIndex,
    made: &KeySet,
    at: &KeyName,
) -> Result<Vec<Violation>, Memory>
    ensures all { IfOk result (λ list. AreOfKeys (HasRisen (P.refusals patterns.old) (P.refusals patterns.new)) (checked specs.now (is_within at.now) (finite.entries made.now)) list.items) }
    ensures later { P.refusals patterns.old ≤ P.refusals patterns.new }
{
    let mut last = LastPattern::none();
    let mut list = Vec::new(specs.allocator());
    for (name, entry) in made.iter() {
        let is_chosen = is_listed(at, name)?;
        check_if(
            is_chosen, patterns, &mut last, specs, name, entry, &mut list,
        )?;
    }
    Ok(list)
}

/// The first violation of a key that one of the touched mounts owns, of all violations by key in order and for each key
/// by rule. The points of all mounts stand in name order, and the mounts are numbered by them from 0.
pub fn first_violation<P: Patterns>(
    patterns: &mut P,
    keys: &KeySet,
    points: &[KeyName],
    touched: &[u32],
) -> Result<Option<Violation>, Memory>
    requires { IsStrictlySortedBy name_cmp points.now }
    ensures first { IfOk result (IsFirstViolation (HasRisen (P.refusals patterns.old) (P.refusals patterns.new)) (is_owned points.now touched.now) keys.now) }
    ensures later { P.refusals patterns.old ≤ P.refusals patterns.new }
{
    let specs = spec_keys(keys)?;
    let made = with_defaults(&specs, keys)?;
    let index = SpecIndex::new(&specs)?;
    first_in(patterns, &index, &made, points, touched)
}

/// The first violation of some keys that the touched mounts own, as the keys of `spec:` have them.
fn first_in<P: Patterns>(
    patterns: &mut P,
    specs: &SpecIndex,
    made: &KeySet,
    points: &[KeyName],
    touched: &[u32],
) -> Result<Option<Violation>, Memory>
    requires { IsStrictlySortedBy name_cmp points.now }
    ensures first { IfOk result (IsFirstOf (HasRisen (P.refusals patterns.old) (P.refusals patterns.new)) (checked specs.now (is_owned points.now touched.now) (finite.entries made.now))) }
    ensures later { P.refusals patterns.old ≤ P.refusals patterns.new }
{
    let mut last = LastPattern::none();
    for (name, entry) in made.iter() {
        let is_chosen = is_touched(points, touched, name);
        let mut own = Vec::new(specs.allocator());
        check_if(is_chosen, patterns, &mut last, specs, name, entry, &mut own)?;
        if let Some(first) = first_of(own) {
            return Ok(Some(first));
        }
    }
    Ok(None)
}

/// The first of some violations.
fn first_of(list: Vec<Violation>) -> Option<Violation>
    ensures { result ≡ slice_get list.items 0 }
{
    list.into_iter().next()
}
