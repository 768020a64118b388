//! The key that is found for a name in a specified set, of which nothing is made but what the lookup finds.
ghost use Rattle.std.specs.Prelude.{◌≡◌, IfOk};
ghost use Rattle.std.specs.FinMap as finite;
ghost use Rattle.std.specs.Option.{option_map};
ghost use Rattle.general_words.specs.Searches.{first_some};
ghost use Rattle.model_specified.specs.SpecMeta.{spec_meta};
ghost use Rattle.model_specified.specs.Specified.{specified};
ghost use Rattle.spec_cascade.specs.Found.{first_present, found, found_at, present};

use crate::candidates::{candidates, is_cascading};
use crate::founds::Found;
use crate::lookups::if_default;
use key_meta::{Memory, Meta};
use key_name::{KeyName, Namespace};
use key_set::{Entry, KeySet};
use plugin_chain::{spec_meta, specified_at};

/// What is found for a name in what keys come to under their specifications. Only the key that is found is specified.
pub fn lookup_specified(keys: &KeySet, path: &KeyName) -> Result<Option<Found>, Memory>
    ensures { IfOk result (λ answer. answer ≡ found (specified keys.now) path.now) }
{
    if is_cascading(path.namespace()) {
        return search(keys, path);
    }
    own(keys, path)
}

/// A name with its specified entry, if it has one.
fn own(keys: &KeySet, name: &KeyName) -> Result<Option<Found>, Memory>
    ensures { IfOk result (λ found. found ≡ option_map (found_at name.now) (finite.get (specified keys.now) name.now)) }
{
    match specified_at(keys, name)? {
        Some(Entry { value, meta }) => Ok(Some(Found {
            name: name.copy()?,
            value,
            meta,
        })),
        None => Ok(None),
    }
}

/// What is found for a path in any namespace. What the specification says of it, it says in the specified set too.
fn search(keys: &KeySet, path: &KeyName) -> Result<Option<Found>, Memory>
    ensures { IfOk result (λ found. found ≡ first_present (specified keys.now) path.now.parts (spec_meta (specified keys.now) path.now.parts)) }
{
    let said = spec_meta(keys, path)?;
    let default = path.with_namespace(Namespace::Default)?;
    let names = candidates(keys.allocator(), path, &said)?;
    first_present(keys, &said, &default, names.as_slice())
}

/// The first of some candidates that is present.
fn first_present(
    keys: &KeySet,
    said: &Meta,
    default: &KeyName,
    names: &[KeyName],
) -> Result<Option<Found>, Memory>
    ensures { IfOk result (λ found. found ≡ first_some (present (specified keys.now) said.now default.now) names.now) }
{
    for name in names {
        if let Some(found) = present(keys, said, default, name)? {
            return Ok(Some(found));
        }
    }
    Ok(None)
}

/// A candidate, if it is present.
fn present(
    keys: &KeySet,
    said: &Meta,
    default: &KeyName,
    name: &KeyName,
) -> Result<Option<Found>, Memory>
    ensures { IfOk result (λ found. found ≡ present (specified keys.now) said.now default.now name.now) }
{
    match own(keys, name)? {
        Some(found) => Ok(Some(found)),
        None => if_default(keys, said, name == default, name),
    }
}
