//! Unites the parts of a key set.
ghost use Rattle.std.specs.Prelude.{◌≡◌, IfOk, OnOk};
ghost use Rattle.std.specs.FinMap as map;
ghost use Rattle.std.specs.Option.{option_or};
ghost use Rattle.model_names.specs.Name.{Name};
ghost use Rattle.set_split.specs.Seen.{maps_of};
ghost use Rattle.set_split.specs.Union.{IsUnion};

use crate::Parts;
use key_meta::Memory;
use key_set::KeySet;
use std::alloc::Global;

/// The keys of all parts as one set. The parts of a split have no name in common; of a name that is in several parts,
/// the last one's entry stays.
pub fn unite(alloc: Global, parts: Parts) -> Result<KeySet, Memory>
    ensures { IfOk result (λ keys. IsUnion (maps_of parts.parts) keys) }
{
    let mut keys = KeySet::new(alloc);
    for part in parts.parts.into_vec() {
        add_all(&mut keys, part.keys)?;
    }
    Ok(keys)
}

/// Gives each name of another set the entry that it has there.
fn add_all(keys: &mut KeySet, others: KeySet) -> Result<(), Memory>
    ensures { OnOk result ((name : Name) → map.get keys.new name ≡ option_or (map.get others name) (map.get keys.old name)) }
{
    keys.append_all(others)
}
