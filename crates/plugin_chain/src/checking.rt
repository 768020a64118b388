//! The four checks of a key.
ghost use Rattle.std.specs.Prelude.{◌≡◌, ◌≤◌, ◌++◌, map, IfOk, IfSome, OnOk};
ghost use Rattle.std.specs.Option.{option_to_list};
ghost use Rattle.kdb_outside.specs.Faults.{HasRisen};
ghost use Rattle.key_set.specs.EntryView.{entry_of};
ghost use Rattle.model_specified.specs.Specified.{specified_key, specified_value};
ghost use Rattle.model_specified.specs.Violations.{violation_at};
ghost use Rattle.plugin_chain.specs.Layers.{meta_of};
ghost use Rattle.plugin_chain.specs.Steps.{Adds, AddsIf};
ghost use Rattle.type_check.specs.Listings.{IsListingOf};

use crate::booleans::bit_under;
use crate::layers::{Layer, lay_all};
use crate::laying::lay_over;
use crate::spec_index::SpecIndex;
use crate::specifying::layers_of_key;
use key_meta::{Memory, Meta};
use key_name::KeyName;
use key_set::Entry;
use model_rules::Broken;
use model_specified::Violation;
use range_check::check_range;
use regex_check::{LastPattern, Patterns, check_pattern_again};
use std::alloc::Global;
use type_check::{Listing, check_listed, check_type};

/// Checks a key where it is chosen, and adds what it breaks.
pub fn check_if<P: Patterns>(
    is_chosen: bool,
    patterns: &mut P,
    last: &mut LastPattern,
    specs: &SpecIndex,
    name: &KeyName,
    entry: &Entry,
    list: &mut Vec<Violation>,
) -> Result<(), Memory>
    ensures ok { OnOk result (AddsIf is_chosen (HasRisen (P.refusals patterns.old) (P.refusals patterns.new)) (specified_key specs.now (name.now, entry_of entry.now)) list.old.items list.new.items) }
    ensures later { P.refusals patterns.old ≤ P.refusals patterns.new }
{
    if !is_chosen {
        return Ok(());
    }
    check_key(patterns, last, specs, name, entry, list)
}

/// Checks a key as the keys of `spec:` have it, and adds what it breaks. Metadata that is laid over no other is looked
/// at where it stands.
fn check_key<P: Patterns>(
    patterns: &mut P,
    last: &mut LastPattern,
    specs: &SpecIndex,
    name: &KeyName,
    entry: &Entry,
    list: &mut Vec<Violation>,
) -> Result<(), Memory>
    ensures ok { OnOk result (Adds (HasRisen (P.refusals patterns.old) (P.refusals patterns.new)) (specified_key specs.now (name.now, entry_of entry.now)) list.old.items list.new.items) }
    ensures later { P.refusals patterns.old ≤ P.refusals patterns.new }
{
    let alloc = specs.allocator();
    let value = entry.value.as_str();
    let layers = layers_of_key(specs, name)?;
    if layers.is_empty() {
        return check_once(alloc, patterns, last, name, value, &entry.meta, list);
    }
    if layers.len() == 1 && entry.meta.is_empty() {
        return check_layer(alloc, patterns, last, name, value, layers[0], list);
    }
    let mut meta = lay_all(alloc, &layers)?;
    lay_over(&mut meta, &entry.meta)?;
    check_once(alloc, patterns, last, name, value, &meta, list)
}

/// Checks a value under one layer, and adds what it breaks.
fn check_layer<P: Patterns>(
    alloc: Global,
    patterns: &mut P,
    last: &mut LastPattern,
    name: &KeyName,
    value: &str,
    layer: Layer,
    list: &mut Vec<Violation>,
) -> Result<(), Memory>
    ensures ok { OnOk result (Adds (HasRisen (P.refusals patterns.old) (P.refusals patterns.new)) (name.now, record { value = specified_value (meta_of layer.entry) value.now; meta = meta_of layer.entry }) list.old.items list.new.items) }
    ensures later { P.refusals patterns.old ≤ P.refusals patterns.new }
{
    match layer {
        Layer::Own(meta) => check_once(alloc, patterns, last, name, value, meta, list),
        Layer::Shared(glob) => {
            let meta = &glob.entry.meta;
            check_under(
                alloc,
                patterns,
                last,
                name,
                value,
                meta,
                &glob.listing,
                list,
            )
        }
    }
}

/// Checks a value under metadata that stands for one key, and adds what it breaks.
fn check_once<P: Patterns>(
    alloc: Global,
    patterns: &mut P,
    last: &mut LastPattern,
    name: &KeyName,
    value: &str,
    meta: &Meta,
    list: &mut Vec<Violation>,
) -> Result<(), Memory>
    ensures ok { OnOk result (Adds (HasRisen (P.refusals patterns.old) (P.refusals patterns.new)) (name.now, record { value = specified_value meta.now value.now; meta = meta.now }) list.old.items list.new.items) }
    ensures later { P.refusals patterns.old ≤ P.refusals patterns.new }
{
    // most keys have no metadata
    if meta.is_empty() {
        return Ok(());
    }
    let listing = Listing::of(alloc, meta)?;
    check_under(alloc, patterns, last, name, value, meta, &listing, list)
}

/// Checks a value under metadata with the texts of its enumeration, 1 or 0 in place of a boolean's word, and adds what
/// it breaks.
fn check_under<P: Patterns>(
    alloc: Global,
    patterns: &mut P,
    last: &mut LastPattern,
    name: &KeyName,
    value: &str,
    meta: &Meta,
    listing: &Listing,
    list: &mut Vec<Violation>,
) -> Result<(), Memory>
    requires { IsListingOf listing.now meta.now }
    ensures ok { OnOk result (Adds (HasRisen (P.refusals patterns.old) (P.refusals patterns.new)) (name.now, record { value = specified_value meta.now value.now; meta = meta.now }) list.old.items list.new.items) }
    ensures later { P.refusals patterns.old ≤ P.refusals patterns.new }
{
    match bit_under(meta, value) {
        Some(bit) => check_value(alloc, patterns, last, name, bit, meta, listing, list),
        None => check_value(alloc, patterns, last, name, value, meta, listing, list),
    }
}

/// Checks a value under metadata by type, range, enumeration and pattern, and adds what it breaks.
fn check_value<P: Patterns>(
    alloc: Global,
    patterns: &mut P,
    last: &mut LastPattern,
    name: &KeyName,
    value: &str,
    meta: &Meta,
    listing: &Listing,
    list: &mut Vec<Violation>,
) -> Result<(), Memory>
    requires { IsListingOf listing.now meta.now }
    ensures ok { OnOk result (Adds (HasRisen (P.refusals patterns.old) (P.refusals patterns.new)) (name.now, record { value = value.now; meta = meta.now }) list.old.items list.new.items) }
    ensures later { P.refusals patterns.old ≤ P.refusals patterns.new }
{
    add(list, name, check_type(alloc, value, meta)?)?;
    add(list, name, check_range(alloc, value, meta)?)?;
    add(list, name, check_listed(alloc, value, listing)?)?;
    let room = room_for_refusal(list, name, meta)?;
    add_at(
        list,
        name,
        room,
        check_pattern_again(alloc, patterns, last, value, meta)?,
    )?;
    Ok(())
}

/// Takes room for a refused pattern at a key, and answers a copy of the key's name, where the key has a pattern: want
/// of memory then comes before the search and hides no refusal.
fn room_for_refusal(
    list: &mut Vec<Violation>,
    key: &KeyName,
    meta: &Meta,
) -> Result<Option<KeyName>, Memory>
    ensures key { IfOk result (λ room. IfSome room (λ copy. copy ≡ key.now)) }
    ensures same { list.new.items ≡ list.old.items }
{
    if meta.get("check/validation").is_none() {
        return Ok(None);
    }
    list.reserve(1)?;
    Ok(Some(key.copy()?))
}

/// Adds a breach at a key, if there is one.
fn add(list: &mut Vec<Violation>, key: &KeyName, broken: Option<Broken>) -> Result<(), Memory>
    ensures ok { OnOk result (list.new.items ≡ list.old.items ++ map (violation_at key.now) (option_to_list broken)) }
{
    add_at(list, key, None, broken)
}

/// Adds a breach at a key, if there is one, under the copy of its name if that was made before.
fn add_at(
    list: &mut Vec<Violation>,
    key: &KeyName,
    copied: Option<KeyName>,
    broken: Option<Broken>,
) -> Result<(), Memory>
    requires { IfSome copied (λ copy. copy ≡ key.now) }
    ensures ok { OnOk result (list.new.items ≡ list.old.items ++ map (violation_at key.now) (option_to_list broken)) }
{
    if let Some(Broken { rule, given }) = broken {
        let key = match copied {
            Some(copy) => copy,
            None => key.copy()?,
        };
        list.push(Violation { key, rule, given })?;
    }
    Ok(())
}
