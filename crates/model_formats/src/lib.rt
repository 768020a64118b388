//! What a format of files is, with the laws that each one keeps, and which key of a map is the first that a file can't
//! hold. Definitions for the crates above.
#![tactic(auto)]

ghost use Rattle.std.specs.Prelude.{◌≡◌, ◌⊎◌, [], ◌∷◌, codes};
ghost use Rattle.std.specs.FinMap as map;
ghost use Rattle.model_names.specs.declared.namespaces.Namespace.TheVariants.{Cascading};
ghost use Rattle.model_names.specs.Name.{Name};
ghost use Rattle.model_maps.specs.Entry.{plain_entry};
ghost use Rattle.model_maps.specs.KeyMap.{KeyMap, no_keys};
ghost use Rattle.model_formats.specs.Holding.{EachHas, LacksFirst};

/// Every key of a map is without a value, or one is the first that has one; never both, and one key alone.
pub fn keys_have_a_property_or_one_lacks_it_first()
    ensures total { (keys : KeyMap)
        → EachHas (λ _ entry. entry.value ≡ []) keys
        ⊎ ((name : Name) × LacksFirst (λ _ entry. entry.value ≡ []) keys name) }
    ensures not_both { (keys : KeyMap) (name : Name) → EachHas (λ _ entry. entry.value ≡ []) keys
        → LacksFirst (λ _ entry. entry.value ≡ []) keys name → ⊥ }
    ensures one { (keys : KeyMap) (name other : Name) → LacksFirst (λ _ entry. entry.value ≡ []) keys name
        → LacksFirst (λ _ entry. entry.value ≡ []) keys other → name ≡ other }
{}

/// Of the keys `/a`, without a value, and `/b` and `/c`, with one, `/b` is the first that has one.
pub fn the_first_of_two_lacks_first()
    ensures { LacksFirst (λ _ entry. entry.value ≡ []) (map.insert (map.insert (map.insert no_keys (record { namespace = Cascading; parts = codes "c" ∷ [] }) (plain_entry (codes "1"))) (record { namespace = Cascading; parts = codes "b" ∷ [] }) (plain_entry (codes "1"))) (record { namespace = Cascading; parts = codes "a" ∷ [] }) (plain_entry [])) (record { namespace = Cascading; parts = codes "b" ∷ [] }) }
{}
