//! Keys that were read so far, with what they weigh.
ghost use Rattle.std.specs.Prelude.{◌≡◌, ◌∷◌, [], IfOk};
ghost use Rattle.general_words.specs.Saturated.{saturated};
ghost use Rattle.model_names.specs.declared.namespaces.Namespace.TheVariants.{Cascading};
ghost use Rattle.model_maps.specs.Entry.{plain_entry};
ghost use Rattle.model_maps.specs.KeyMap.{no_keys, weight_of_key};
ghost use Rattle.json_storage.specs.Found.{IsSound, HasAdded};
ghost use Rattle.json_storage.specs.Placing.{IsBehind};
ghost use Rattle.std.specs.Bool.{Decides};
ghost use Rattle.std.specs.declared.cmp.Ordering.TheVariants.{Less};
ghost use Rattle.model_names.specs.Order.{name_cmp};

use key_meta::{LONGEST_VALUE, Memory, Meta, Text};
use key_name::KeyName;
use key_set::{Entry, HEAVIEST_MAP, KEY_WEIGHT, KeySet};
use std::alloc::Global;
use std::cmp::Ordering;

/// The most parts of a key.
pub const MOST_PARTS: usize = 100;

/// Keys in name order, and what they weigh.
#[derive(Drop)]
pub struct Found {
    pub keys: KeySet,
    pub weight: u64,
}

/// No keys.
pub fn nothing_found(alloc: Global) -> Found
    ensures sound { IsSound result }
    ensures none { result.keys ≡ no_keys }
{
    Found {
        keys: KeySet::new(alloc),
        weight: 0,
    }
}

/// Adds a text at a name, if it stands behind all keys so far and is within the limits with them.
pub fn add_text(
    found: &mut Found,
    alloc: Global,
    name: &KeyName,
    text: &str,
) -> Result<bool, Memory>
    requires sound { IsSound found.old }
    requires cascading { name.now.namespace ≡ Cascading }
    ensures { IfOk result (HasAdded (λ added. added ≡ (name.now.parts, text.now) ∷ []) found.old found.new) }
{
    if name.len() > MOST_PARTS || text.len() > LONGEST_VALUE {
        return Ok(false);
    }
    if !is_behind(name, &found.keys) {
        return Ok(false);
    }
    let weight = found.weight.saturating_add(weight_of(name, text));
    if weight > HEAVIEST_MAP {
        return Ok(false);
    }
    let entry = Entry {
        value: Text::new(alloc, text)?,
        meta: Meta::new(alloc),
    };
    found.keys.append(name.copy()?, entry)?;
    found.weight = weight;
    Ok(true)
}

/// Whether a name stands behind all keys.
fn is_behind(name: &KeyName, keys: &KeySet) -> bool
    ensures { Decides result (IsBehind name.now keys.now) }
{
    let count = keys.len();
    if count == 0 {
        return true;
    }
    match keys.at(count - 1) {
        Some((last, _)) => is_before(last, name),
        None => true,
    }
}

/// Whether a name stands before another.
fn is_before(name: &KeyName, other: &KeyName) -> bool
    ensures { Decides result (name_cmp name.now other.now ≡ Less) }
{
    matches!(name.cmp(other), Ordering::Less)
}

/// What the key of a text weighs.
fn weight_of(name: &KeyName, text: &str) -> u64
    ensures { result ≡ saturated (weight_of_key name.now (plain_entry text.now)) }
{
    (KEY_WEIGHT as u64)
        .saturating_add(name.text_bytes() as u64)
        .saturating_add(text.len() as u64)
}
