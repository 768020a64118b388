//! Objects of array parts as arrays.
ghost use Rattle.std.specs.Prelude.{◌≡◌, IfOk};
ghost use Rattle.serde_json.specs.Data.{object};
ghost use Rattle.serde_json.specs.View.{view, items_view, members_view};
ghost use Rattle.model_json.specs.Text.{begin_as_items as begin_as_elements, with_arrays as arranged, elements as elements_of, members_with_arrays as members_arranged};

use crate::names::is_array_like;
use key_meta::Memory;
use serde_json::{Map, Value};
use std::alloc::Global;

/// A value again, in which each object whose names are array parts is an array. It nests no deeper than the value.
#[cycle(with_arrays)]
pub fn with_arrays(alloc: Global, value: &Value) -> Result<Value, Memory>
    ensures { IfOk result (λ made. view made ≡ arranged (view value.now)) }
{
    match value {
        Value::Null => Ok(Value::Null),
        Value::Bool(b) => Ok(Value::Bool(*b)),
        Value::Number(n) => Ok(Value::Number(*n)),
        Value::String(text) => Ok(Value::String(text.clone()?)),
        Value::Array(_) => value.clone(),
        Value::Object(members) => with_members(alloc, members),
    }
}

#[cycle(with_arrays)]
fn with_members(alloc: Global, members: &Map<String, Value>) -> Result<Value, Memory>
    ensures { IfOk result (λ made. view made ≡ arranged (object (members_view members.now.entries))) }
{
    if begin_as_items(members) {
        return Ok(Value::Array(elements(alloc, members)?));
    }
    Ok(Value::Object(members_with_arrays(alloc, members)?))
}

#[cycle(with_arrays)]
fn elements(alloc: Global, members: &Map<String, Value>) -> Result<Vec<Value>, Memory>
    ensures { IfOk result (λ made. items_view made.items ≡ elements_of (members_view members.now.entries)) }
{
    let mut made = Vec::new(alloc);
    for (_, member) in members.iter() {
        made.push(with_arrays(alloc, member)?)?;
    }
    Ok(made)
}

#[cycle(with_arrays)]
fn members_with_arrays(
    alloc: Global,
    members: &Map<String, Value>,
) -> Result<Map<String, Value>, Memory>
    ensures { IfOk result (λ made. members_view made.entries ≡ members_arranged (members_view members.now.entries)) }
{
    let mut made = Map::new(alloc);
    for (key, member) in members.iter() {
        let name = key.clone()?;
        drop(made.insert(name, with_arrays(alloc, member)?)?);
    }
    Ok(made)
}

/// Whether the first name looks like that of an element.
fn begin_as_items(members: &Map<String, Value>) -> bool
    ensures { result ≡ begin_as_elements (members_view members.now.entries) }
{
    match members.first_key_value() {
        Some((name, _)) => is_array_like(name.as_str()),
        None => false,
    }
}
