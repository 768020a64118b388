//! Whether two maps have the same keys.
ghost use Rattle.std.specs.Prelude.{◌≡◌, ◌&&◌, T};
ghost use Rattle.std.specs.FinMap.{is_sorted};
ghost use Rattle.std.specs.Cmp.Lexicographic.{pointwise};
ghost use Rattle.model_names.specs.Order.{name_cmp, name_eq};
ghost use Rattle.key_set.specs.EntryView.{entry_of};
ghost use Rattle.key_set.specs.Same.{same_entry};

use crate::Entry;
use chunked_map::ChunkedMap;
use key_name::KeyName;

/// The names and the entries of two maps are the same, one after another.
pub fn have_same(keys: &ChunkedMap<KeyName, Entry>, others: &ChunkedMap<KeyName, Entry>) -> bool
    ensures same { result
        ≡ pointwise (λ x y. name_eq x.0 y.0 && same_entry (entry_of x.1) (entry_of y.1)) keys.now others.now }
    ensures sorted { T (is_sorted name_cmp keys.now) }
    ensures others_sorted { T (is_sorted name_cmp others.now) }
{
    let mut rest = others.iter();
    for (name, entry) in keys.iter() {
        let Some((other_name, other_entry)) = rest.next() else {
            return false;
        };
        if !(name == other_name && entry == other_entry) {
            return false;
        }
    }
    rest.next().is_none()
}
