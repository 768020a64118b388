//! The key that is found for a name.
ghost use Rattle.std.specs.Prelude.{◌≡◌, IfOk, None, if◌then◌else◌};
ghost use Rattle.std.specs.FinMap as finite;
ghost use Rattle.std.specs.Option.{option_map};
ghost use Rattle.general_words.specs.Searches.{first_some};
ghost use Rattle.model_specified.specs.SpecMeta.{spec_meta};
ghost use Rattle.spec_cascade.specs.Found.{default_said, first_present, found, found_at, present};

use crate::candidates::{candidates, is_cascading};
use crate::founds::Found;
use key_meta::{Memory, Meta, Text};
use key_name::{KeyName, Namespace};
use key_set::{Entry, KeySet};
use plugin_chain::spec_meta;

/// What is found for a name: with a namespace, the key itself; for a cascading one the first of its candidates that is
/// present, which are the names in `override`, its path in the namespaces that are searched, the names in `fallback`,
/// and its default.
pub fn lookup(keys: &KeySet, path: &KeyName) -> Result<Option<Found>, Memory>
    ensures { IfOk result (λ answer. answer ≡ found keys.now path.now) }
{
    if is_cascading(path.namespace()) {
        return search(keys, path);
    }
    match keys.lookup(path) {
        Some(entry) => Ok(Some(found_at(path, entry)?)),
        None => Ok(None),
    }
}

/// What is found for a path in any namespace.
fn search(keys: &KeySet, path: &KeyName) -> Result<Option<Found>, Memory>
    ensures { IfOk result (λ found. found ≡ first_present keys.now path.now.parts (spec_meta keys.now path.now.parts)) }
{
    let said = spec_meta(keys, path)?;
    let default = path.with_namespace(Namespace::Default)?;
    let names = candidates(keys.allocator(), path, &said)?;
    first_present(keys, &said, &default, names.as_slice())
}

/// The first of some candidates that is present.
fn first_present(
    keys: &KeySet,
    said: &Meta,
    default: &KeyName,
    names: &[KeyName],
) -> Result<Option<Found>, Memory>
    ensures { IfOk result (λ found. found ≡ first_some (present keys.now said.now default.now) names.now) }
{
    for name in names {
        if let Some(found) = present(keys, said, default, name)? {
            return Ok(Some(found));
        }
    }
    Ok(None)
}

/// A candidate, if it is present.
fn present(
    keys: &KeySet,
    said: &Meta,
    default: &KeyName,
    name: &KeyName,
) -> Result<Option<Found>, Memory>
    ensures { IfOk result (λ found. found ≡ present keys.now said.now default.now name.now) }
{
    match keys.lookup(name) {
        Some(entry) => Ok(Some(found_at(name, entry)?)),
        None => if_default(keys, said, name == default, name),
    }
}

/// A name with the default that a specification says, if it is the default's.
pub fn if_default(
    keys: &KeySet,
    said: &Meta,
    is_default: bool,
    name: &KeyName,
) -> Result<Option<Found>, Memory>
    ensures { IfOk result (λ found. found ≡ option_map (found_at name.now) (if is_default then default_said said.now else None)) }
{
    if !is_default {
        return Ok(None);
    }
    let Some(text) = said.get("default") else {
        return Ok(None);
    };
    let value = Text::new(keys.allocator(), text)?;
    Ok(Some(Found {
        name: name.copy()?,
        value,
        meta: said.copy()?,
    }))
}

/// A name with its entry.
fn found_at(name: &KeyName, entry: &Entry) -> Result<Found, Memory>
    ensures { IfOk result (λ found. found ≡ record { name = name.now; value = entry.now.value; meta = entry.now.meta }) }
{
    Ok(Found {
        name: name.copy()?,
        value: entry.value.copy()?,
        meta: entry.meta.copy()?,
    })
}
