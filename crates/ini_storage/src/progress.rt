//! How far a file was read: the keys that its lines so far make, and what they weigh.
ghost use Rattle.std.specs.Prelude.{◌≡◌, ◌+◌, ◌<◌, ◌≤◌, IfOk, OnOk, MatchOption};
ghost use Rattle.model_maps.specs.KeyMap.{weight, heaviest_map};
ghost use Rattle.ini_storage.specs.Steps.{Steps, Adds};

use crate::meanings::{Meaning, meaning_of};
use crate::plain::{Plainly, has_backslash, plain_meaning};
use file_lines::{name_of, value_of};
use key_meta::{Memory, Meta, Text};
use key_set::{Entry, HEAVIEST_MAP, KEY_WEIGHT, KeySet};
use std::alloc::Global;

/// The keys so far, with what they weigh.
#[derive(Drop)]
pub struct Progress {
    pub keys: KeySet,
    pub weight: u64,
}

/// Reads a line, if it has a reading.
pub fn add_line(progress: &mut Progress, alloc: Global, line: &[u8]) -> Result<bool, Memory>
    requires { progress.old.weight ≡ weight progress.old.keys }
    ensures sound { OnOk result (progress.new.weight ≡ weight progress.new.keys) }
    ensures read { IfOk result (Steps progress.old.keys line.now progress.new.keys) }
{
    let Ok(_) = str::from_utf8(line) else {
        return Ok(false);
    };
    if has_backslash(line) {
        return match meaning_of(alloc, line)? {
            Meaning::Skipped => Ok(true),
            Meaning::Unreadable => Ok(false),
            Meaning::Pair { name, value } => add_key(progress, alloc, &name, &value),
        };
    }
    match plain_meaning(line) {
        Plainly::Skipped => Ok(true),
        Plainly::Unreadable => Ok(false),
        Plainly::Pair { name, value } => add_key(progress, alloc, name, value),
    }
}

/// Adds a key, if its name is new and below the mountpoint, its value isn't too long, and the keys don't get too heavy.
fn add_key(
    progress: &mut Progress,
    alloc: Global,
    text: &[u8],
    value: &[u8],
) -> Result<bool, Memory>
    requires { progress.old.weight ≡ weight progress.old.keys }
    ensures sound { OnOk result (progress.new.weight ≡ weight progress.new.keys) }
    ensures added { IfOk result (Adds progress.old.keys text.now value.now progress.new.keys) }
{
    let Some(name) = name_of(alloc, text)? else {
        return Ok(false);
    };
    let Some(value) = value_of(value) else {
        return Ok(false);
    };
    if name.len() == 0 {
        return Ok(false);
    }
    if progress.keys.lookup(&name).is_some() {
        return Ok(false);
    }
    let Some(weight) = heavier(progress.weight, name.text_bytes(), value.len()) else {
        return Ok(false);
    };
    let value = Text::new(alloc, value)?;
    let meta = Meta::new(alloc);
    progress.keys.append(name, Entry { value, meta })?;
    progress.weight = weight;
    Ok(true)
}

/// A weight with a key of so many bytes more, if a map may weigh that.
fn heavier(weight: u64, name: usize, value: usize) -> Option<u64>
    ensures { MatchOption result
        (heaviest_map < weight + 64 + name + value)
        (λ sum. (sum ≡ weight + 64 + name + value) × (sum ≤ heaviest_map)) }
{
    let sum = weight
        .checked_add(KEY_WEIGHT as u64)?
        .checked_add(name as u64)?
        .checked_add(value as u64)?;
    if sum > HEAVIEST_MAP {
        return None;
    }
    Some(sum)
}
