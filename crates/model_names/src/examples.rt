//! A few names, worked: the definitions at concrete texts.
ghost use Rattle.std.specs.Prelude.{◌≡◌, [], ◌∷◌, ◌++◌, None, Some, codes};
ghost use Rattle.std.specs.declared.cmp.Ordering.TheVariants.{Less};
ghost use Rattle.model_names.specs.declared.namespaces.Namespace.TheVariants.{Cascading, Spec, Proc, Dir, User, System, Default};
ghost use Rattle.model_names.specs.Glob.{MatchesGlob, HasGlob};
ghost use Rattle.model_names.specs.Name.{Name};
ghost use Rattle.model_names.specs.NameOf.{name_of};
ghost use Rattle.model_names.specs.Order.{name_cmp};
ghost use Rattle.model_names.specs.Spelling.{spelling};
ghost use Rattle.model_names.specs.Spells.{Spells};
ghost use Rattle.model_names.specs.Refuses.{NoNamespace, UnknownNamespace, NoSlash, BadEscape, BadArray, Nul, refusal_of};

/// Empty parts, `.` and `..` are dropped, and an array part gets its underscores.
pub fn spelled_names_are_reduced()
    ensures reduced { Spells (codes "user://a/./b/../c/") (record { namespace = User; parts = codes "a" ∷ codes "c" ∷ [] }) }
    ensures root { Spells (codes "user:/..") (record { namespace = User; parts = [] }) }
    ensures array { Spells (codes "user:/#10") (record { namespace = User; parts = codes "#_10" ∷ [] }) }
    ensures escaped { Spells (codes "user:/a\\/b/%") (record { namespace = User; parts = codes "a/b" ∷ [] ∷ [] }) }
    ensures plain { Spells (codes "user:/#x") (record { namespace = User; parts = codes "#x" ∷ [] }) }
{}

/// A backslash before another byte, an underscore too many and a leading zero are refused.
pub fn refused_texts_spell_no_name()
    ensures escape { (name : Name) → Spells (codes "user:/a\\b") name → ⊥ }
    ensures underscore { (name : Name) → Spells (codes "user:/#_1") name → ⊥ }
    ensures zero { (name : Name) → Spells (codes "user:/#00") name → ⊥ }
{}

/// A name sorts behind those above it, and before its neighbours.
pub fn names_are_ordered_by_parts()
    ensures namespaces { name_cmp (record { namespace = Spec; parts = codes "z" ∷ [] }) (record { namespace = User; parts = codes "a" ∷ [] })
        ≡ Less }
    ensures cascading { name_cmp (record { namespace = Cascading; parts = codes "z" ∷ [] }) (record { namespace = Spec; parts = [] })
        ≡ Less }
    ensures proc { name_cmp (record { namespace = Proc; parts = codes "z" ∷ [] }) (record { namespace = Dir; parts = [] })
        ≡ Less }
    ensures default { name_cmp (record { namespace = System; parts = codes "z" ∷ [] }) (record { namespace = Default; parts = [] })
        ≡ Less }
    ensures below { name_cmp (record { namespace = User; parts = codes "a" ∷ [] }) (record { namespace = User; parts = codes "a" ∷ codes "b" ∷ [] })
        ≡ Less }
    ensures parts { name_cmp (record { namespace = User; parts = codes "a" ∷ codes "b" ∷ [] }) (record { namespace = User; parts = codes "a-b" ∷ [] })
        ≡ Less }
{}

/// A part is spelled with its escapes, and a root as one slash.
pub fn spellings_are_canonical()
    ensures root { spelling (record { namespace = User; parts = [] }) ≡ codes "user:/" }
    ensures escaped { spelling (record { namespace = User; parts = codes "a/b" ∷ [] ∷ [] }) ≡ codes "user:/a\\/b/%" }
    ensures reserved { spelling (record { namespace = User; parts = codes ".." ∷ codes "%" ∷ [] })
        ≡ codes "user:/\\../\\%" }
{}

/// The name of a text as a function of it.
pub fn texts_have_their_names()
    ensures name { name_of (codes "user:/a/../#10") ≡ Some (record { namespace = User; parts = codes "#_10" ∷ [] }) }
    ensures cascading { name_of (codes "/") ≡ Some (record { namespace = Cascading; parts = [] }) }
    ensures refused { name_of (codes "user:a") ≡ None }
{}

/// `_` stands for any part, `#` for an item of an array, and any other part for itself; the lists are as long.
pub fn globs_match_part_by_part()
    ensures any { MatchesGlob (codes "a" ∷ codes "x" ∷ []) (codes "a" ∷ codes "_" ∷ []) }
    ensures item { MatchesGlob (codes "#_10" ∷ codes "b" ∷ []) (codes "#" ∷ codes "b" ∷ []) }
    ensures hole { MatchesGlob (codes "_" ∷ codes "#" ∷ []) (codes "_" ∷ codes "#" ∷ []) }
    ensures no_item { MatchesGlob (codes "x" ∷ []) (codes "#" ∷ []) → ⊥ }
    ensures other { MatchesGlob (codes "a" ∷ []) (codes "b" ∷ []) → ⊥ }
    ensures longer { MatchesGlob (codes "a" ∷ codes "b" ∷ []) (codes "a" ∷ []) → ⊥ }
    ensures shorter { MatchesGlob [] (codes "_" ∷ []) → ⊥ }
    ensures has { HasGlob (codes "a" ∷ codes "#" ∷ []) }
    ensures has_none { HasGlob (codes "a" ∷ codes "#0" ∷ codes "_b" ∷ []) → ⊥ }
{}

/// Each refusal, with its place.
pub fn refused_texts_have_their_refusals()
    ensures no_namespace { refusal_of (codes "sw/a") ≡ Some NoNamespace }
    ensures unknown { refusal_of (codes "me:/a") ≡ Some UnknownNamespace }
    ensures unknown_first { refusal_of (codes "me:a") ≡ Some UnknownNamespace }
    ensures no_slash { refusal_of (codes "user:a") ≡ Some NoSlash }
    ensures escape { refusal_of (codes "user:/a\\b") ≡ Some (BadEscape 7) }
    ensures underscore { refusal_of (codes "user:/#_1") ≡ Some (BadArray 6) }
    ensures zero { refusal_of (codes "user:/#00") ≡ Some (BadArray 6) }
    ensures nul { refusal_of (codes "user:/a" ++ 0 ∷ []) ≡ Some (Nul 7) }
    ensures name { refusal_of (codes "user:/a\\/b/%/#10") ≡ None }
{}
