//! At which parts keys fit into the object of a map. What it keeps is worked out once, and each key is looked up there.
ghost use Rattle.std.specs.Prelude.{◌≡◌, IfOk};
ghost use Rattle.std.specs.Bool.{Decides};
ghost use Rattle.general_words.specs.Texts.{is_text};
ghost use Rattle.model_names.specs.ArrayPart.{array_part as part_of};
ghost use Rattle.serde_json.specs.Data.{object};
ghost use Rattle.serde_json.specs.View.{view, members_view};
ghost use Rattle.json_storage.specs.Writing.{between};
ghost use Rattle.json_storage.specs.Kept.{are_names as are_all_names, are_items as are_all_items, are_of_one_kind as have_one_kind, kept as keeps, kept_members as members_keep, HasText};

use crate::names::{are_same, array_part, is_array_like};
use crate::objects::part_between;
use key_meta::Memory;
use key_name::KeyName;
use serde_json::{Map, Value};
use std::alloc::Global;

/// What a value keeps. Values nest no deeper than `object_of` makes them.
#[cycle(kept)]
pub fn kept(alloc: Global, value: &Value) -> Result<Value, Memory>
    ensures { IfOk result (λ made. view made ≡ keeps (view value.now)) }
{
    match value {
        Value::Null => Ok(Value::Null),
        Value::Bool(_) => Ok(Value::Null),
        Value::Number(_) => Ok(Value::Null),
        Value::String(_) => Ok(Value::String(String::new(alloc))),
        Value::Array(_) => Ok(Value::Null),
        Value::Object(members) => kept_object(alloc, members),
    }
}

/// What an object keeps: nothing where its names are of two kinds.
#[cycle(kept)]
fn kept_object(alloc: Global, members: &Map<String, Value>) -> Result<Value, Memory>
    ensures { IfOk result (λ made. view made ≡ keeps (object (members_view members.now.entries))) }
{
    if !are_of_one_kind(alloc, members)? {
        return Ok(Value::Null);
    }
    Ok(Value::Object(kept_members(alloc, members)?))
}

#[cycle(kept)]
fn kept_members(alloc: Global, members: &Map<String, Value>) -> Result<Map<String, Value>, Memory>
    ensures { IfOk result (λ made. members_view made.entries ≡ members_keep (members_view members.now.entries)) }
{
    let mut made = Map::new(alloc);
    for (key, member) in members.iter() {
        let name = key.clone()?;
        drop(made.insert(name, kept(alloc, member)?)?);
    }
    Ok(made)
}

/// Whether names may stand side by side.
fn are_of_one_kind(alloc: Global, members: &Map<String, Value>) -> Result<bool, Memory>
    ensures { IfOk result (λ b. b ≡ have_one_kind (members_view members.now.entries)) }
{
    if are_names(members) {
        return Ok(true);
    }
    are_items(alloc, members)
}

/// Whether no name looks like an element's part.
fn are_names(members: &Map<String, Value>) -> bool
    ensures { result ≡ are_all_names (members_view members.now.entries) }
{
    for (name, _) in members.iter() {
        if is_array_like(name.as_str()) {
            return false;
        }
    }
    true
}

/// Whether the names are the parts of elements, from the first on.
fn are_items(alloc: Global, members: &Map<String, Value>) -> Result<bool, Memory>
    ensures { IfOk result (λ b. b ≡ are_all_items 0 (members_view members.now.entries)) }
{
    let mut index: usize = 0;
    let count = members.len();
    for (name, _) in members.iter() {
        if !is_item(alloc, name.as_str(), index)? {
            return Ok(false);
        }
        index += 1;
    }
    Ok(true)
}

/// Whether a name is the part of an element.
fn is_item(alloc: Global, name: &str, index: usize) -> Result<bool, Memory>
    ensures { IfOk result (λ b. b ≡ is_text name.now (part_of index)) }
{
    let part = array_part(alloc, index)?;
    Ok(are_same(name, part.as_str()))
}

/// Whether a text stands at the parts of a name from one on, before an end.
pub fn has_text(value: &Value, name: &KeyName, from: usize, end: usize) -> bool
    ensures { Decides result (HasText (between from end name.now.parts) (view value.now)) }
{
    let Some(part) = part_between(name, from, end) else {
        return value.is_string();
    };
    match value.get(part) {
        Some(inner) => has_text(inner, name, from + 1, end),
        None => false,
    }
}
