//! Writes a map as its text.
ghost use Rattle.std.specs.Prelude.{◌≡◌, ◌∷◌, [], ◌++◌, false, IfOk, MatchResult};
ghost use Rattle.std.specs.Bool.{Decides};
ghost use Rattle.model_maps.specs.KeyMap.{KeyMap};
ghost use Rattle.model_maps.specs.Limits.{IsLimited};
ghost use Rattle.key_set.specs.EntryView.{entry_of};
ghost use Rattle.serde_json.specs.View.{view};
ghost use Rattle.serde_json.specs.Written.{compact_text, has_float};
ghost use Rattle.model_json.specs.Tree.{tree};
ghost use Rattle.model_json.specs.Keys.{IsJsonKey, IsStorable, BreaksAt};
ghost use Rattle.model_json.specs.Text.{with_arrays as arranged, text};
ghost use Rattle.storage_api.specs.Formats.{RefusesToWrite};
ghost use Rattle.json_storage.specs.Writing.{cut_leaves};
ghost use Rattle.json_storage.specs.Kept.{kept as keeps, CanStand};

use crate::arrays::with_arrays;
use crate::found::MOST_PARTS;
use crate::kept::{has_text, kept};
use crate::names::is_array_like;
use crate::objects::object_of;
use key_meta::Memory;
use key_name::KeyName;
use key_set::{Entry, KeySet};
use serde_json::Value;
use std::alloc::Global;
use storage_api::WriteRefusal;

/// The text of a map; `NotStorable` where it has a key that a file can't hold beside the others, with the first such
/// key.
pub fn write(alloc: Global, keys: &KeySet) -> Result<Vec<u8>, WriteRefusal>
    requires limited { IsLimited keys.now }
    ensures text { MatchResult result (λ bytes. (bytes.items ≡ text keys.now) × IsStorable keys.now) (RefusesToWrite (BreaksAt keys.now)) }
{
    let object = object_of(alloc, keys)?;
    test(alloc, keys, &object)?;
    Ok(text_of(alloc, &object)?)
}

/// Whether every key can be stored, by the object of the keys.
fn test(alloc: Global, keys: &KeySet, object: &Value) -> Result<(), WriteRefusal>
    requires object { view object.now ≡ tree (cut_leaves 0 keys.now) }
    ensures { MatchResult result (λ _. IsStorable keys.now) (RefusesToWrite (BreaksAt keys.now)) }
{
    let whole = kept(alloc, object)?;
    test_each(keys, &whole)
}

/// Whether every key can be stored, by what the object of the keys keeps.
fn test_each(keys: &KeySet, whole: &Value) -> Result<(), WriteRefusal>
    requires whole { view whole.now ≡ keeps (tree (cut_leaves 0 keys.now)) }
    ensures { MatchResult result (λ _. IsStorable keys.now) (RefusesToWrite (BreaksAt keys.now)) }
{
    for (name, entry) in keys.iter() {
        if !is_json_key(whole, name, entry) {
            return Err(WriteRefusal::NotStorable { key: name.copy()? });
        }
    }
    Ok(())
}

/// Whether a file can hold a key, by what the object of all keys keeps.
fn is_json_key(whole: &Value, name: &KeyName, entry: &Entry) -> bool
    ensures { (keys : KeyMap) → view whole.now ≡ keeps (tree (cut_leaves 0 keys))
        → Decides result (IsJsonKey keys name.now (entry_of entry.now)) }
{
    if !can_stand(name, entry) {
        return false;
    }
    has_text(whole, name, 0, name.len())
}

/// Whether a file can hold a key where nothing stands in its way.
fn can_stand(name: &KeyName, entry: &Entry) -> bool
    ensures { Decides result (CanStand name.now (entry_of entry.now)) }
{
    if name.len() > MOST_PARTS {
        return false;
    }
    if !entry.meta.is_empty() {
        return false;
    }
    match name.part(0) {
        Some(part) => !is_array_like(part),
        None => false,
    }
}

/// The text of an object whose values are texts, in which objects of array parts are arrays.
fn text_of(alloc: Global, object: &Value) -> Result<Vec<u8>, Memory>
    requires texts { has_float (view object.now) ≡ false }
    ensures { IfOk result (λ bytes. bytes.items ≡ compact_text (arranged (view object.now)) ++ 10 ∷ []) }
{
    let value = with_arrays(alloc, object)?;
    let mut bytes = value.to_vec(alloc)?;
    bytes.push(b'\n')?;
    Ok(bytes)
}
