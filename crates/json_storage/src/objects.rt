//! The object of a map, leaf by leaf from the last one: each leaf comes before all others, so only first members
//! change.
ghost use Rattle.std.specs.Prelude.{◌≡◌, ◌+◌, ◌∷◌, ◌<◌, [], length, IfOk, OnSome, MatchOption};
ghost use Rattle.std.specs.Bool.{Decides};
ghost use Rattle.std.specs.FinMap as map;
ghost use Rattle.model_maps.specs.Limits.{IsLimited};
ghost use Rattle.serde_json.specs.Data.{object, member};
ghost use Rattle.serde_json.specs.View.{view, members_view};
ghost use Rattle.model_json.specs.Tree.{empty, members_in as members_of, text_or as text_or_members, with_leaf as joined, tree};
ghost use Rattle.json_storage.specs.Writing.{between, cut_leaves, are_some, BeginsWith, TakesFirst, IsBefore, ComesFirst};

use crate::found::MOST_PARTS;
use crate::names::are_same;
use key_meta::Memory;
use key_name::KeyName;
use key_set::KeySet;
use serde_json::{Map, Value};
use std::alloc::Global;

/// The most parts of a leaf: one more than a key may have, so that what is below a key is seen, and no value nests
/// deeper.
pub const DEEPEST: usize = MOST_PARTS + 1;

/// The object of a map, whose leaves have their first parts alone.
pub fn object_of(alloc: Global, keys: &KeySet) -> Result<Value, Memory>
    requires limited { IsLimited keys.now }
    ensures { IfOk result (λ made. view made ≡ tree (cut_leaves 0 keys.now)) }
{
    let mut made = nothing(alloc);
    let mut left = keys.len();
    while left > 0 {
        left -= 1;
        made = with_key(alloc, made, keys, left)?;
    }
    Ok(made)
}

/// The object of a map's keys from one on, if a value is that of the keys behind it.
fn with_key(alloc: Global, value: Value, keys: &KeySet, i: usize) -> Result<Value, Memory>
    requires limited { IsLimited keys.now }
    requires place { i < length (map.entries keys.now) }
    requires behind { view value ≡ tree (cut_leaves (i + 1) keys.now) }
    ensures { IfOk result (λ made. view made ≡ tree (cut_leaves i keys.now)) }
{
    match keys.at(i) {
        Some((name, entry)) => { with_leaf(alloc, value, name, 0, DEEPEST, entry.value.as_str()) }
        None => Ok(value),
    }
}

/// A value with one more leaf before all others. Values nest no deeper than there are parts.
fn with_leaf(
    alloc: Global,
    value: Value,
    name: &KeyName,
    from: usize,
    end: usize,
    text: &str,
) -> Result<Value, Memory>
    requires first { ComesFirst (between from end name.now.parts) (view value) }
    ensures { IfOk result (λ made. view made ≡ joined (between from end name.now.parts) text.now (view value)) }
{
    let Some(part) = part_between(name, from, end) else {
        return text_or(alloc, text, value);
    };
    let mut members = members_in(alloc, value);
    let first = first_at(alloc, &mut members, part);
    let changed = with_leaf(alloc, first, name, from + 1, end, text)?;
    object_with(alloc, members, part, changed)
}

/// The part of a name at a place before an end.
pub fn part_between(name: &KeyName, from: usize, end: usize) -> Option<&str>
    ensures parts { MatchOption result
        (between from end name.now.parts ≡ [])
        (λ part. between from end name.now.parts ≡ part.now ∷ between (from + 1) end name.now.parts) }
    ensures place { OnSome result (from < end) }
{
    if end <= from {
        return None;
    }
    match name.part(from) {
        Some(part) => Some(part),
        None => None,
    }
}

/// A text where no members stand; it gives way to those.
fn text_or(alloc: Global, text: &str, value: Value) -> Result<Value, Memory>
    ensures { IfOk result (λ made. view made ≡ text_or_members text.now (view value)) }
{
    if has_members(&value) {
        return Ok(value);
    }
    Ok(Value::String(String::from_str(alloc, text)?))
}

fn has_members(value: &Value) -> bool
    ensures { result ≡ are_some (members_of (view value.now)) }
{
    match value.as_object() {
        Some(members) => !members.is_empty(),
        None => false,
    }
}

/// The members of an object; other values have none.
fn members_in(alloc: Global, value: Value) -> Map<String, Value>
    ensures { members_view result.entries ≡ members_of (view value) }
{
    match value {
        Value::Object(members) => members,
        _ => Map::new(alloc),
    }
}

/// Takes out the first member if it has a name, and answers its value, or an empty object.
fn first_at(alloc: Global, members: &mut Map<String, Value>, part: &str) -> Value
    ensures { TakesFirst part.now (members_view members.old.entries) (members_view members.new.entries) (view result) }
{
    if !is_first(members, part) {
        return nothing(alloc);
    }
    match members.pop_first() {
        Some((_name, first)) => first,
        None => nothing(alloc),
    }
}

/// Whether the first member has a name.
fn is_first(members: &Map<String, Value>, part: &str) -> bool
    ensures { Decides result (BeginsWith part.now (members_view members.now.entries)) }
{
    match members.first_key_value() {
        Some((name, _)) => are_same(part, name.as_str()),
        None => false,
    }
}

/// An object without members.
fn nothing(alloc: Global) -> Value
    ensures { view result ≡ empty }
{
    Value::Object(Map::new(alloc))
}

/// The object of members and one more before them.
fn object_with(
    alloc: Global,
    members: Map<String, Value>,
    part: &str,
    value: Value,
) -> Result<Value, Memory>
    requires before { IsBefore part.now (members_view members.entries) }
    ensures { IfOk result (λ made. view made ≡ object (member part.now (view value) (members_view members.entries))) }
{
    let mut all = members;
    let name = String::from_str(alloc, part)?;
    drop(all.insert(name, value)?);
    Ok(Value::Object(all))
}
