//! Reads a file as one JSON text.
ghost use Rattle.std.specs.Prelude.{◌≡◌, ℕ, List, Some, IfOk, MatchOption, MatchResult};
ghost use Rattle.std.specs.Str.{IsUtf8};
ghost use Rattle.model_maps.specs.KeyMap.{KeyMap};
ghost use Rattle.serde_json.specs.Data.{object};
ghost use Rattle.serde_json.specs.Read.{read as value_of};
ghost use Rattle.serde_json.specs.View.{members_view};
ghost use Rattle.storage_api.specs.Formats.{RefusesToRead};
ghost use Rattle.model_json.specs.Reading.{ReadsObject, Reads, IsBadAt};

use crate::found::nothing_found;
use crate::values::add_members;
use key_meta::Memory;
use key_name::{KeyName, Namespace};
use key_set::KeySet;
use serde_json::{Map, Value};
use std::alloc::Global;
use storage_api::ReadRefusal;

/// The keys of a file. A bad file is bad as a whole, at line 1.
pub fn read(alloc: Global, bytes: &[u8]) -> Result<KeySet, ReadRefusal>
    ensures { MatchResult result (λ keys. Reads bytes.now keys) (RefusesToRead (IsBadAt bytes.now)) }
{
    if bytes.is_empty() {
        return Ok(KeySet::new(alloc));
    }
    let value = match Value::from_slice(alloc, bytes) {
        Ok(value) => value,
        Err(error) => {
            if error.is_memory() {
                return Err(ReadRefusal::Memory);
            }
            return Err(ReadRefusal::BadFile { line: 1 });
        }
    };
    let Some(members) = value.as_object() else {
        return Err(ReadRefusal::BadFile { line: 1 });
    };
    match keys_of(alloc, members)? {
        Some(keys) => Ok(keys),
        None => Err(ReadRefusal::BadFile { line: 1 }),
    }
}

/// The keys of an object, if it has a reading as a whole.
fn keys_of(alloc: Global, members: &Map<String, Value>) -> Result<Option<KeySet>, Memory>
    ensures { IfOk result (λ found. (bytes : List ℕ) → IsUtf8 bytes → value_of bytes ≡ Some (object (members_view members.now.entries)) → MatchOption found
        ((keys : KeyMap) → ReadsObject bytes keys → ⊥)
        (λ keys. Reads bytes keys)) }
{
    let mut found = nothing_found(alloc);
    let top = KeyName::root(alloc, Namespace::Cascading);
    if !add_members(&mut found, alloc, &top, members)? {
        return Ok(None);
    }
    Ok(Some(found.keys))
}
