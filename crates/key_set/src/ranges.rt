//! The keys that are a name or below it stand together in name order.
ghost use Rattle.std.specs.Prelude.{◌≡◌, ◌-◌, ◌<◌, ◌≤◌, true, not, length, slice_index_or, slice_range};
ghost use Rattle.std.specs.FinMap.Entries.{where_key};
ghost use Rattle.std.specs.List.{remove_range};
ghost use Rattle.model_names.specs.Below.{is_at_or_below};
ghost use Rattle.model_names.specs.Order.{name_cmp};

use crate::Entry;
use chunked_map::ChunkedMap;
use key_name::KeyName;

/// From which place up to which other one the keys stand that are a name or below it.
pub fn range_below(keys: &ChunkedMap<KeyName, Entry>, at: &KeyName) -> (usize, usize)
    ensures order { result.0 ≤ result.1 }
    ensures bounds { result.1 ≤ length keys.now }
    ensures inside { where_key name_cmp (is_at_or_below at.now) keys.now ≡ slice_range keys.now result.0 result.1 }
    ensures outside { where_key name_cmp (λ name. not (is_at_or_below at.now name)) keys.now
        ≡ remove_range keys.now result.0 result.1 }
{
    let from = keys.count_before(at);
    if is_last_below(keys, at) {
        return (from, keys.len());
    }
    let mut to = from;
    for (name, _) in keys.iter_from(from) {
        if !name.is_below_or_same(at) {
            return (from, to);
        }
        to += 1;
    }
    (from, to)
}

/// Whether the last key is a name or below it. Then all are that do not stand before that name.
fn is_last_below(keys: &ChunkedMap<KeyName, Entry>, at: &KeyName) -> bool
    ensures below { result ≡ true → (d : _)
        → is_at_or_below at.now (slice_index_or keys.now (length keys.now - 1) d).0 ≡ true }
    ensures some { result ≡ true → 0 < length keys.now }
{
    let len = keys.len();
    if len == 0 {
        return false;
    }
    match keys.at(len - 1) {
        Some((name, _)) => name.is_below_or_same(at),
        None => false,
    }
}
