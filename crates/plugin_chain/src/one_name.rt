//! What one name has in the specified set, of which nothing else is made.
ghost use Rattle.std.specs.Prelude.{◌≡◌, ◌&&◌, nat_eq, not, option_and_then, IfOk};
ghost use Rattle.std.specs.FinMap as finite;
ghost use Rattle.std.specs.Option.{option_map};
ghost use Rattle.key_set.specs.EntryView.{entry_of};
ghost use Rattle.model_names.specs.declared.namespaces.Namespace.TheVariants.{Default};
ghost use Rattle.model_names.specs.Name.{rank};
ghost use Rattle.model_specified.specs.Globs.{has_glob};
ghost use Rattle.model_specified.specs.SpecMeta.{spec_keys};
ghost use Rattle.model_specified.specs.Specified.{default_at, default_text, specified, specified_entry, with_defaults};

use crate::spec_index::SpecIndex;
use crate::spec_metas::spec_keys;
use crate::specifying::specified_entry;
use key_meta::{Memory, Meta, Text};
use key_name::{KeyName, Namespace};
use key_set::{Entry, KeySet};

/// The entry that a name has in the specified set of some keys, or none. No other key is specified.
pub fn specified_at(keys: &KeySet, name: &KeyName) -> Result<Option<Entry>, Memory>
    ensures { IfOk result (λ found. option_map entry_of found ≡ finite.get (specified keys.now) name.now) }
{
    match entry_at(keys, name)? {
        Some(entry) => Ok(Some(specified_alone(keys, name, entry)?)),
        None => Ok(None),
    }
}

/// The specified entry of a key.
fn specified_alone(keys: &KeySet, name: &KeyName, entry: Entry) -> Result<Entry, Memory>
    ensures { IfOk result (λ new. entry_of new ≡ specified_entry (spec_keys keys.now) name.now (entry_of entry)) }
{
    let specs = spec_keys(keys)?;
    let index = SpecIndex::new(&specs)?;
    match specified_entry(&index, name, &entry)? {
        Some(changed) => Ok(changed),
        None => Ok(entry),
    }
}

/// The entry that a name has once the defaults are made.
fn entry_at(keys: &KeySet, name: &KeyName) -> Result<Option<Entry>, Memory>
    ensures { IfOk result (λ found. option_map entry_of found ≡ finite.get (with_defaults (spec_keys keys.now) keys.now) name.now) }
{
    if let Some(default) = default_at(keys, name)? {
        return Ok(Some(default));
    }
    match keys.lookup(name) {
        Some(entry) => Ok(Some(entry.copy()?)),
        None => Ok(None),
    }
}

/// The default that a key of `spec:` makes of a name.
fn default_at(keys: &KeySet, name: &KeyName) -> Result<Option<Entry>, Memory>
    ensures { IfOk result (λ made. option_map entry_of made ≡ default_at (spec_keys keys.now) name.now) }
{
    if !may_be_made(name) {
        return Ok(None);
    }
    let own = name.with_namespace(Namespace::Spec)?;
    default_said(keys, &own)
}

/// Whether a key of `spec:` may make a default of a name: it is one of `default:` without a glob.
fn may_be_made(name: &KeyName) -> bool
    ensures { result ≡ (nat_eq (rank name.now.namespace) (rank Default) && not (has_glob name.now.parts)) }
{
    is_default(name.namespace()) && !name.has_glob()
}

/// Whether a namespace is that of defaults.
fn is_default(namespace: Namespace) -> bool
    ensures { result ≡ nat_eq (rank namespace) (rank Default) }
{
    matches!(namespace, Namespace::Default)
}

/// The entry that the text `default` of a key is.
fn default_said(keys: &KeySet, own: &KeyName) -> Result<Option<Entry>, Memory>
    ensures { IfOk result (λ made. option_map entry_of made ≡ option_and_then default_text (finite.get keys.now own.now)) }
{
    let Some(entry) = keys.lookup(own) else {
        return Ok(None);
    };
    let Some(text) = entry.meta.get("default") else {
        return Ok(None);
    };
    let alloc = keys.allocator();
    let value = Text::new(alloc, text)?;
    Ok(Some(Entry {
        value,
        meta: Meta::new(alloc),
    }))
}
