//! The specified set.
ghost use Rattle.std.specs.Prelude.{◌≡◌, IfOk, OnOk, if◌then◌else◌};
ghost use Rattle.std.specs.FinMap as finite;
ghost use Rattle.std.specs.Option.{option_map, option_map_or, unwrap_or};
ghost use Rattle.key_set.specs.EntryView.{entry_of};
ghost use Rattle.model_names.specs.Name.{Name};
ghost use Rattle.model_specified.specs.SpecMeta.{said_of};
ghost use Rattle.model_specified.specs.Specified.{bit_under, is_specified, specified, specified_entry, specified_value};
ghost use Rattle.plugin_chain.specs.Layers.{laid};

use crate::booleans::bit_under;
use crate::defaults::with_defaults;
use crate::layers::{Layer, lay_all};
use crate::laying::lay_over;
use crate::spec_index::SpecIndex;
use crate::spec_metas::{layers_of, spec_keys};
use key_meta::{Memory, Meta, Text};
use key_name::{KeyName, Namespace};
use key_set::{Entry, KeySet};
use std::alloc::Global;

/// The specified set: the keys with the defaults that the keys of `spec:` make; outside `spec:` and cascading each key
/// has the specification metadata of its path over its own; and a boolean's word is 1 or 0. Keys that stay as they are,
/// are shared.
pub fn specified(keys: &KeySet) -> Result<KeySet, Memory>
    ensures { IfOk result (λ set. set ≡ specified keys.now) }
{
    let specs = spec_keys(keys)?;
    let made = with_defaults(&specs, keys)?;
    let index = SpecIndex::new(&specs)?;
    specify_each(&index, &made)
}

/// The keys, each as the keys of `spec:` have it.
fn specify_each(specs: &SpecIndex, made: &KeySet) -> Result<KeySet, Memory>
    ensures { IfOk result (λ set. (name : Name) → finite.get set name ≡ option_map (specified_entry specs.now name) (finite.get made.now name)) }
{
    let mut set = made.copy()?;
    for (name, entry) in made.iter() {
        let changed = specified_entry(specs, name, entry)?;
        set_changed(&mut set, name, changed)?;
    }
    Ok(set)
}

/// Gives a name its entry, where that has changed.
fn set_changed(set: &mut KeySet, name: &KeyName, changed: Option<Entry>) -> Result<(), Memory>
    ensures ok { OnOk result (set.new ≡ option_map_or (λ entry. finite.insert set.old name.now (entry_of entry)) changed set.old) }
{
    if let Some(entry) = changed {
        set.append(name.copy()?, entry)?;
    }
    Ok(())
}

/// The specified entry of a key, where it isn't its own.
pub fn specified_entry(
    specs: &SpecIndex,
    name: &KeyName,
    entry: &Entry,
) -> Result<Option<Entry>, Memory>
    ensures { IfOk result (λ changed. unwrap_or (option_map entry_of changed) (entry_of entry.now) ≡ specified_entry specs.now name.now (entry_of entry.now)) }
{
    let layers = layers_of_key(specs, name)?;
    if layers.is_empty() {
        return changed_value(specs.allocator(), entry);
    }
    let mut meta = lay_all(specs.allocator(), &layers)?;
    lay_over(&mut meta, &entry.meta)?;
    let value = value_under(specs.allocator(), &meta, &entry.value)?;
    Ok(Some(Entry { value, meta }))
}

/// A value under its metadata: 1 or 0 in place of a boolean's word.
fn value_under(alloc: Global, meta: &Meta, value: &Text) -> Result<Text, Memory>
    ensures { IfOk result (λ new. new ≡ specified_value meta.now value.now) }
{
    match bit_under(meta, value.as_str()) {
        Some(bit) => Text::new(alloc, bit),
        None => value.copy(),
    }
}

/// What the keys of `spec:` say of a key: nothing in `spec:` and cascading.
pub fn layers_of_key<'s, 'a>(
    specs: &'s SpecIndex<'a>,
    name: &KeyName,
) -> Result<Vec<Layer<'s, 'a>>, Memory>
    ensures { IfOk result (λ layers. laid layers.items ≡ (if is_specified name.now.namespace then said_of specs.now name.now.parts else finite.empty)) }
{
    if is_specified(name.namespace()) {
        layers_of(specs, name)
    } else {
        Ok(Vec::new(specs.allocator()))
    }
}

/// Whether keys of a namespace are specified and checked.
pub fn is_specified(namespace: Namespace) -> bool
    ensures { result ≡ is_specified namespace }
{
    !matches!(namespace, Namespace::Cascading | Namespace::Spec)
}

/// The entry with a bit in place of its value, where it is a boolean's word.
fn changed_value(alloc: Global, entry: &Entry) -> Result<Option<Entry>, Memory>
    ensures { IfOk result (λ changed. option_map entry_of changed ≡ option_map (λ bit. record { value = bit; meta = entry.now.meta }) (bit_under entry.now.meta entry.now.value)) }
{
    let Some(bit) = bit_under(&entry.meta, entry.value.as_str()) else {
        return Ok(None);
    };
    let meta = entry.meta.copy()?;
    let value = Text::new(alloc, bit)?;
    Ok(Some(Entry { value, meta }))
}
