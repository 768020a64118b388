//! What keys weigh.
ghost use Rattle.std.specs.Prelude.{◌≡◌, T, sum_by};
ghost use Rattle.std.specs.FinMap.{is_sorted};
ghost use Rattle.general_words.specs.Saturated.{saturated};
ghost use Rattle.model_names.specs.Order.{name_cmp};
ghost use Rattle.model_maps.specs.KeyMap.{weight_of_key};
ghost use Rattle.key_set.specs.EntryView.{entry_of};

use crate::Entry;
use chunked_map::ChunkedMap;
use key_name::KeyName;

/// What a key weighs beside its bytes.
pub const KEY_WEIGHT: usize = 64;

/// The most that a map may weigh, in a file and in the whole store.
pub const HEAVIEST_MAP: u64 = 16777216;

/// What some keys weigh together. A weight beyond the type's end is given as its last value.
pub fn weight_of_all(keys: &ChunkedMap<KeyName, Entry>) -> u64
    ensures weight { result ≡ saturated (sum_by (λ key. weight_of_key key.0 (entry_of key.1)) keys.now) }
    ensures sorted { T (is_sorted name_cmp keys.now) }
{
    let mut weight: u64 = 0;
    for (name, entry) in keys.iter() {
        weight = weight.saturating_add(weight_of_key(name, entry));
    }
    weight
}

/// What one key weighs. A weight beyond the type's end is given as its last value.
pub fn weight_of_key(name: &KeyName, entry: &Entry) -> u64
    ensures { result ≡ saturated (weight_of_key name.now (entry_of entry.now)) }
{
    (KEY_WEIGHT as u64)
        .saturating_add(name.text_bytes() as u64)
        .saturating_add(entry.value.as_str().len() as u64)
        .saturating_add(entry.meta.bytes())
}
