//! Merges of three sets of keys.

use crate::notation::text_of;
use crate::sets::{name_of, written_of};
use key_merge::{Merge3Fault, Strategy, merge3, strategy_of};
use key_meta::{LONGEST_META_NAME, List, Memory, Meta, Text};
use key_name::KeyName;
use key_set::{Entry, KeySet};
use std::alloc::{AllocError, Global};

/// What comes of a line, if it is a merge: a strategy, the base, our keys and theirs.
pub fn answer_to(alloc: Global, word: &str, rest: &str) -> Result<Option<String>, Memory> {
    if word != "merge" {
        return Ok(None);
    }
    let (strategy, sets) = rest.split_once(' ').unwrap_or((rest, ""));
    match strategy_of(strategy) {
        Some(strategy) => Ok(Some(merged(alloc, sets, strategy)?)),
        None => Ok(None),
    }
}

fn merged(alloc: Global, sets: &str, strategy: Strategy) -> Result<String, Memory> {
    let (base, sides) = sets.split_once(' ').unwrap_or((sets, ""));
    let (our, their) = sides.split_once(' ').unwrap_or((sides, ""));
    let base = keys_of(alloc, base)?;
    let our = keys_of(alloc, our)?;
    let their = keys_of(alloc, their)?;
    told(alloc, merge3(&base, &our, &their, strategy))
}

fn told(alloc: Global, outcome: Result<KeySet, Merge3Fault>) -> Result<String, Memory> {
    match outcome {
        Ok(keys) => written_of(alloc, &keys),
        Err(Merge3Fault::Conflicts { names }) => conflicts_of(alloc, &names),
        Err(Merge3Fault::Memory) => Err(AllocError),
    }
}

fn conflicts_of(alloc: Global, names: &List<KeyName>) -> Result<String, Memory> {
    let mut answer = String::from_str(alloc, "  conflicts")?;
    for name in names.as_slice() {
        answer.push(' ')?;
        answer.push_str(&name.text()?)?;
    }
    answer.push('\n')?;
    Ok(answer)
}

/// The keys that stand one a line: a name, a value, and perhaps a metadata's name and text.
fn keys_of(alloc: Global, text: &str) -> Result<KeySet, Memory> {
    let text = text_of(alloc, text)?.unwrap_or(String::new(alloc));
    let mut keys = KeySet::new(alloc);
    for line in text.as_str().lines() {
        let (name, rest) = line.split_once(' ').unwrap_or((line, ""));
        if let Some(name) = name_of(alloc, name)? {
            let _ = keys.append(name, entry_of(alloc, rest)?)?;
        }
    }
    Ok(keys)
}

fn entry_of(alloc: Global, text: &str) -> Result<Entry, Memory> {
    let (value, rest) = text.split_once(' ').unwrap_or((text, ""));
    let (name, text) = rest.split_once(' ').unwrap_or((rest, ""));
    let mut meta = Meta::new(alloc);
    if !name.is_empty() && name.len() <= LONGEST_META_NAME {
        let _ = meta.set(name, text)?;
    }
    Ok(Entry {
        value: Text::new(alloc, value)?,
        meta,
    })
}
