//! The keys of a JSON value, in its order.
ghost use Rattle.std.specs.Prelude.{◌≡◌, ◌∷◌, [], IfOk, MatchOption, None, Some, option_map, string_bytes};
ghost use Rattle.model_names.specs.declared.namespaces.Namespace.TheVariants.{Cascading};
ghost use Rattle.serde_json.specs.View.{view, number_view, items_view, members_view};
ghost use Rattle.model_json.specs.Leaves.{integer_text as text_of_integer, boolean_text as text_of_boolean};
ghost use Rattle.json_storage.specs.Found.{IsSound, HasAdded};
ghost use Rattle.json_storage.specs.Reading.{ValueAdds, ItemAdds, ItemsAdd, MemberAdds, MembersAdd};

use crate::found::{Found, add_text};
use crate::names::{array_part, child, is_array_like};
use key_meta::Memory;
use key_name::KeyName;
use serde_json::{Map, Number, Value};
use std::alloc::Global;

/// Adds the keys of a value at a name, if it has a reading there. Values nest no deeper than `serde_json` reads them.
#[cycle(add_value)]
pub fn add_value(
    found: &mut Found,
    alloc: Global,
    name: &KeyName,
    value: &Value,
) -> Result<bool, Memory>
    requires sound { IsSound found.old }
    requires cascading { name.now.namespace ≡ Cascading }
    ensures { IfOk result (HasAdded (ValueAdds name.now.parts (view value.now)) found.old found.new) }
{
    match value {
        Value::Null => Ok(false),
        Value::Bool(b) => add_text(found, alloc, name, boolean_text(*b)),
        Value::Number(n) => add_number(found, alloc, name, n),
        Value::String(text) => add_text(found, alloc, name, text.as_str()),
        Value::Array(items) => add_items(found, alloc, name, items),
        Value::Object(members) => add_members(found, alloc, name, members),
    }
}

/// Adds the keys of elements.
#[cycle(add_value)]
fn add_items(
    found: &mut Found,
    alloc: Global,
    name: &KeyName,
    items: &Vec<Value>,
) -> Result<bool, Memory>
    requires sound { IsSound found.old }
    requires cascading { name.now.namespace ≡ Cascading }
    ensures { IfOk result (HasAdded (ItemsAdd name.now.parts 0 (items_view items.now.items)) found.old found.new) }
{
    let mut index: usize = 0;
    for item in items {
        if !add_item(found, alloc, name, index, item)? {
            return Ok(false);
        }
        index += 1;
    }
    Ok(true)
}

/// Adds the keys of an element, of which there must be some.
#[cycle(add_value)]
fn add_item(
    found: &mut Found,
    alloc: Global,
    name: &KeyName,
    index: usize,
    item: &Value,
) -> Result<bool, Memory>
    requires sound { IsSound found.old }
    requires cascading { name.now.namespace ≡ Cascading }
    ensures { IfOk result (HasAdded (ItemAdds name.now.parts index (view item.now)) found.old found.new) }
{
    let part = array_part(alloc, index)?;
    let Some(at) = child(name, part.as_str())? else {
        return Ok(false);
    };
    let count = found.keys.len();
    if !add_value(found, alloc, &at, item)? {
        return Ok(false);
    }
    if found.keys.len() == count {
        return Ok(false);
    }
    Ok(true)
}

/// Adds the keys of members.
#[cycle(add_value)]
pub fn add_members(
    found: &mut Found,
    alloc: Global,
    name: &KeyName,
    members: &Map<String, Value>,
) -> Result<bool, Memory>
    requires sound { IsSound found.old }
    requires cascading { name.now.namespace ≡ Cascading }
    ensures { IfOk result (HasAdded (MembersAdd name.now.parts (members_view members.now.entries)) found.old found.new) }
{
    for (key, member) in members.iter() {
        if !add_member(found, alloc, name, key.as_str(), member)? {
            return Ok(false);
        }
    }
    Ok(true)
}

/// Adds the keys of a member, whose name may not look like an element's part.
#[cycle(add_value)]
fn add_member(
    found: &mut Found,
    alloc: Global,
    name: &KeyName,
    part: &str,
    member: &Value,
) -> Result<bool, Memory>
    requires sound { IsSound found.old }
    requires cascading { name.now.namespace ≡ Cascading }
    ensures { IfOk result (HasAdded (MemberAdds name.now.parts part.now (view member.now)) found.old found.new) }
{
    if is_array_like(part) {
        return Ok(false);
    }
    let Some(at) = child(name, part)? else {
        return Ok(false);
    };
    add_value(found, alloc, &at, member)
}

/// Adds the digits of an integer.
fn add_number(
    found: &mut Found,
    alloc: Global,
    name: &KeyName,
    number: &Number,
) -> Result<bool, Memory>
    requires sound { IsSound found.old }
    requires cascading { name.now.namespace ≡ Cascading }
    ensures { IfOk result (HasAdded (λ added. option_map (λ text. (name.now.parts, text) ∷ []) (text_of_integer (number_view number.now)) ≡ Some added) found.old found.new) }
{
    match integer_text(alloc, number)? {
        Some(text) => add_text(found, alloc, name, text.as_str()),
        None => Ok(false),
    }
}

/// The digits of an integer of 64 bits; no other number has a text.
fn integer_text(alloc: Global, number: &Number) -> Result<Option<String>, Memory>
    ensures { IfOk result (λ text. option_map string_bytes text ≡ text_of_integer (number_view number.now)) }
{
    if let Some(n) = number.as_u64() {
        return Ok(Some(format!(in alloc; "{n}")?));
    }
    match number.as_i64() {
        Some(n) => Ok(Some(format!(in alloc; "{n}")?)),
        None => Ok(None),
    }
}

fn boolean_text(b: bool) -> &'static str
    ensures { result.now ≡ text_of_boolean b }
{
    if b { "true" } else { "false" }
}
