//! A few sets, worked: the definitions at concrete keys.
ghost use Rattle.std.specs.Prelude.{◌≡◌, [], ◌∷◌, true, false, None, Some, codes};
ghost use Rattle.std.specs.FinMap as map;
ghost use Rattle.std.specs.List.{AllByRecursion};
ghost use Rattle.std.specs.declared.cmp.Ordering.TheVariants.{Less};
ghost use Rattle.model_names.specs.declared.namespaces.Namespace.TheVariants.{Proc, Dir, User, System, Default};
ghost use Rattle.model_names.specs.Order.{name_cmp};
ghost use Rattle.model_maps.specs.Entry.{plain_entry, with_meta};
ghost use Rattle.model_maps.specs.KeyMap.{no_keys};
ghost use Rattle.model_specified.specs.SpecMeta.{is_pattern_of, spec_meta, spec_name};
ghost use Rattle.model_specified.specs.Specified.{bit_of, default_name, default_of};

/// Four words stand for 1 and four for 0; any other value stays as it is, also one in great letters.
pub fn words_stand_for_bits()
    ensures one { AllByRecursion (λ word. bit_of word ≡ Some (codes "1")) (codes "true" ∷ codes "yes" ∷ codes "on" ∷ codes "enabled" ∷ []) }
    ensures zero { AllByRecursion (λ word. bit_of word ≡ Some (codes "0")) (codes "false" ∷ codes "no" ∷ codes "off" ∷ codes "disabled" ∷ []) }
    ensures other { AllByRecursion (λ word. bit_of word ≡ None) (codes "maybe" ∷ codes "True" ∷ codes "1" ∷ [] ∷ []) }
{}

/// Violations are told by key in order: those of `dir:` before those of `user:`, which stand before those of `system:`.
pub fn keys_come_by_namespace()
    ensures proc { name_cmp (record { namespace = Proc; parts = codes "z" ∷ [] }) (record { namespace = Dir; parts = codes "a" ∷ [] })
        ≡ Less }
    ensures dir { name_cmp (record { namespace = Dir; parts = codes "z" ∷ [] }) (record { namespace = User; parts = codes "a" ∷ [] })
        ≡ Less }
    ensures user { name_cmp (record { namespace = User; parts = codes "z" ∷ [] }) (record { namespace = System; parts = codes "a" ∷ [] })
        ≡ Less }
    ensures system { name_cmp (record { namespace = System; parts = codes "z" ∷ [] }) (record { namespace = Default; parts = codes "a" ∷ [] })
        ≡ Less }
{}

/// `_` stands for any part and `#` for an item of an array, in paths that are as long; a path's own name is no pattern
/// of it.
pub fn patterns_match_paths_part_by_part()
    ensures any { is_pattern_of (codes "sw" ∷ codes "a" ∷ codes "port" ∷ []) (spec_name (codes "sw" ∷ codes "_" ∷ codes "port" ∷ []))
        ≡ true }
    ensures item { is_pattern_of (codes "sw" ∷ codes "#_10" ∷ []) (spec_name (codes "sw" ∷ codes "#" ∷ [])) ≡ true }
    ensures no_item { is_pattern_of (codes "sw" ∷ codes "a" ∷ []) (spec_name (codes "sw" ∷ codes "#" ∷ [])) ≡ false }
    ensures longer { is_pattern_of (codes "sw" ∷ codes "a" ∷ []) (spec_name (codes "_" ∷ [])) ≡ false }
    ensures own { is_pattern_of (codes "_" ∷ []) (spec_name (codes "_" ∷ [])) ≡ false }
{}

/// A key of `spec:` makes a default where its name has no glob and it has metadata `default`.
pub fn a_plain_name_makes_a_default()
    ensures made { default_of (spec_name (codes "a" ∷ []), with_meta (plain_entry []) (codes "default") (codes "80"))
        ≡ (default_name (codes "a" ∷ []), plain_entry (codes "80")) ∷ [] }
    ensures glob { default_of (spec_name (codes "_" ∷ []), with_meta (plain_entry []) (codes "default") (codes "80"))
        ≡ [] }
    ensures without { default_of (spec_name (codes "a" ∷ []), plain_entry []) ≡ [] }
{}

/// Of `spec:/_` with the type `char` and `spec:/a` with the type `string`, the second gives the path `/a` its type, and
/// the first `/b`.
pub fn the_path_itself_comes_before_its_patterns()
    ensures own { map.get (spec_meta (map.insert (map.insert no_keys (spec_name (codes "_" ∷ [])) (with_meta (plain_entry []) (codes "type") (codes "char"))) (spec_name (codes "a" ∷ [])) (with_meta (plain_entry []) (codes "type") (codes "string"))) (codes "a" ∷ [])) (codes "type")
        ≡ Some (codes "string") }
    ensures other { map.get (spec_meta (map.insert (map.insert no_keys (spec_name (codes "_" ∷ [])) (with_meta (plain_entry []) (codes "type") (codes "char"))) (spec_name (codes "a" ∷ [])) (with_meta (plain_entry []) (codes "type") (codes "string"))) (codes "b" ∷ [])) (codes "type")
        ≡ Some (codes "char") }
{}
