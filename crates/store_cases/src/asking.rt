//! The events that lines ask for, and the keys that are prepared.

use key_meta::{LONGEST_META_NAME, Memory, Meta, Text};
use key_name::{KeyName, NameFault};
use key_set::{Entry, KeySet};
use std::alloc::{AllocError, Global};
use store_play::Event;

/// The most keys that a line puts.
const MOST: usize = 99_999;

/// The event of a line, with these keys where it prepares them.
pub fn event_of(
    alloc: Global,
    word: &str,
    rest: &str,
    keys: &KeySet,
) -> Result<Option<Event>, Memory> {
    let (handle, rest) = number_of(rest);
    match word {
        "get" => Ok(match name_of(alloc, rest)? {
            Some(parent) => Some(Event::Get { handle, parent }),
            None => None,
        }),
        "prepare" => {
            let (number, rest) = number_of(rest);
            let Some(parent) = name_of(alloc, rest)? else {
                return Ok(None);
            };
            let keys = keys.copy()?;
            Ok(Some(Event::Prepare {
                handle,
                number,
                parent,
                keys,
            }))
        }
        "commit" => {
            let (number, _) = number_of(rest);
            Ok(Some(Event::Commit { handle, number }))
        }
        _ => Ok(None),
    }
}

/// The number that a text begins with, and what comes behind it.
pub fn number_of(text: &str) -> (usize, &str) {
    let (number, rest) = text.split_once(' ').unwrap_or((text, ""));
    (number.parse().unwrap_or(usize::MAX), rest)
}

/// The name that a text spells.
pub fn name_of(alloc: Global, text: &str) -> Result<Option<KeyName>, Memory> {
    match KeyName::parse(alloc, text) {
        Ok(name) => Ok(Some(name)),
        Err(NameFault::Memory) => Err(AllocError),
        Err(_) => Ok(None),
    }
}

/// Puts a key with a value.
pub fn put(alloc: Global, keys: &mut KeySet, text: &str) -> Result<bool, Memory> {
    let (name, value) = text.split_once(' ').unwrap_or((text, ""));
    put_entry(alloc, keys, name, plain_entry(alloc, value)?)
}

/// Puts keys with their values, and their metadata, each spelled as `NAME=VALUE` or `NAME#META=TEXT`.
pub fn put_all(alloc: Global, keys: &mut KeySet, text: &str) -> Result<bool, Memory> {
    for word in text.split(' ') {
        if !word.is_empty() && !put_word(alloc, keys, word)? {
            return Ok(false);
        }
    }
    Ok(true)
}

fn put_word(alloc: Global, keys: &mut KeySet, word: &str) -> Result<bool, Memory> {
    let (name, value) = word.split_once('=').unwrap_or((word, ""));
    match name.split_once('#') {
        Some((name, meta)) => put_meta_of(alloc, keys, name, meta, value),
        None => put_entry(alloc, keys, name, plain_entry(alloc, value)?),
    }
}

/// Puts so many keys with one value, whose names end with the digits of their numbers, from 00001 on.
pub fn put_many(alloc: Global, keys: &mut KeySet, text: &str) -> Result<bool, Memory> {
    let (count, rest) = number_of(text);
    let (start, value) = rest.split_once(' ').unwrap_or((rest, ""));
    for number in 1..=count.min(MOST) {
        let name = format!(in alloc; "{start}{number:05}")?;
        if !put_entry(alloc, keys, name.as_str(), plain_entry(alloc, value)?)? {
            return Ok(false);
        }
    }
    Ok(true)
}

/// Gives a key one more metadata: its name and its text. A key that wasn't put has no value.
pub fn put_meta(alloc: Global, keys: &mut KeySet, text: &str) -> Result<bool, Memory> {
    let (name, rest) = text.split_once(' ').unwrap_or((text, ""));
    let (word, value) = rest.split_once(' ').unwrap_or((rest, ""));
    put_meta_of(alloc, keys, name, word, value)
}

fn put_meta_of(
    alloc: Global,
    keys: &mut KeySet,
    name: &str,
    word: &str,
    value: &str,
) -> Result<bool, Memory> {
    if word.is_empty() || word.len() > LONGEST_META_NAME {
        return Ok(false);
    }
    let Some(name) = name_of(alloc, name)? else {
        return Ok(false);
    };
    let mut entry = match keys.remove(&name)? {
        Some(entry) => entry,
        None => plain_entry(alloc, "")?,
    };
    let _ = entry.meta.set(word, value)?;
    let _ = keys.append(name, entry)?;
    Ok(true)
}

fn plain_entry(alloc: Global, value: &str) -> Result<Entry, Memory> {
    Ok(Entry {
        value: Text::new(alloc, value)?,
        meta: Meta::new(alloc),
    })
}

/// Puts a key where the text spells its name.
fn put_entry(alloc: Global, keys: &mut KeySet, name: &str, entry: Entry) -> Result<bool, Memory> {
    let Some(name) = name_of(alloc, name)? else {
        return Ok(false);
    };
    let _ = keys.append(name, entry)?;
    Ok(true)
}
