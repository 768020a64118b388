//! What a store holds: entries by name, and what they weigh. Definitions for the crates above.
#![tactic(auto)]

ghost use Rattle.std.specs.Prelude.{◌≡◌, ℕ, ◌+◌, ◌^◌, ◌<◌, ◌≤◌, None, List, [], ◌∷◌, length, slice_get, codes};
ghost use Rattle.std.specs.FinMap as map;
ghost use Rattle.model_names.specs.declared.namespaces.Namespace.TheVariants.{User};
ghost use Rattle.model_names.specs.Name.{Name};
ghost use Rattle.model_maps.specs.Entry.{Entry, Meta, array_texts, item_name, plain_entry};
ghost use Rattle.model_maps.specs.KeyMap.{KeyMap, no_keys, weight, weight_of_key};
ghost use Rattle.model_maps.specs.Together.{StandTogether};

/// The empty map weighs nothing, and a new key adds its own weight.
pub fn a_new_key_adds_its_weight()
    ensures empty { weight no_keys ≡ 0 }
    ensures added { (keys : KeyMap) (name : Name) (entry : Entry) → map.get keys name ≡ None
        → weight (map.insert keys name entry) ≡ weight keys + weight_of_key name entry }
{}

/// A key weighs `key_weight`, 64, and the bytes of its canonical name and of its value.
pub fn a_key_weighs_its_texts()
    ensures { weight_of_key (record { namespace = User; parts = codes "a" ∷ [] }) (plain_entry (codes "x")) ≡ 72 }
{}

/// The texts of an array are those of its items in order, up to the first that is missing.
pub fn an_array_has_the_texts_of_its_items()
    ensures { (meta : Meta) (prefix : List ℕ) (texts : List (List ℕ))
        → ((i : ℕ) → i < length texts → map.get meta (item_name prefix i) ≡ slice_get texts i)
        → map.get meta (item_name prefix (length texts)) ≡ None
        → length texts ≤ 2 ^ 64
        → array_texts meta prefix ≡ texts }
{}

/// The keys that are a name or below it stand together in name order.
pub fn keys_below_a_name_stand_together()
    ensures { (above : Name) (keys : KeyMap) → StandTogether above keys }
{}
