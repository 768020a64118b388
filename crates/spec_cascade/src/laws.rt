//! A few candidates, worked.
ghost use Rattle.std.specs.Prelude.{◌≡◌, [], ◌∷◌, codes};
ghost use Rattle.model_names.specs.declared.namespaces.Namespace.TheVariants.{Default, Dir, Proc, System, User};
ghost use Rattle.model_maps.specs.Entry.{Meta, array_texts};
ghost use Rattle.spec_cascade.specs.Candidates.{candidates, paths_by};

/// The words that are no namespace to be searched are skipped; without a word the usual four are searched.
pub fn words_name_namespaces()
    ensures some { paths_by (codes "a" ∷ []) (codes "system" ∷ codes "spec" ∷ codes "dir" ∷ [])
        ≡ record { namespace = System; parts = codes "a" ∷ [] } ∷ record { namespace = Dir; parts = codes "a" ∷ [] } ∷ [] }
    ensures none { paths_by (codes "a" ∷ []) (codes "spec" ∷ []) ≡ [] }
    ensures usual { paths_by (codes "a" ∷ []) []
        ≡ record { namespace = Proc; parts = codes "a" ∷ [] } ∷ record { namespace = Dir; parts = codes "a" ∷ [] } ∷ record { namespace = User; parts = codes "a" ∷ [] } ∷ record { namespace = System; parts = codes "a" ∷ [] } ∷ [] }
{}

/// All candidates of `/a`, where `override` has `user:/b`, `namespace` has `system`, and `fallback` has a text that is
/// no name and `/c`; and where it has none of these.
pub fn a_path_has_its_candidates()
    ensures all { (said : Meta)
        → array_texts said (codes "override") ≡ codes "user:/b" ∷ []
        → array_texts said (codes "namespace") ≡ codes "system" ∷ []
        → array_texts said (codes "fallback") ≡ codes "b" ∷ codes "/c" ∷ []
        → candidates (codes "a" ∷ []) said ≡
        record { namespace = User; parts = codes "b" ∷ [] }
        ∷ record { namespace = System; parts = codes "a" ∷ [] }
        ∷ record { namespace = Proc; parts = codes "c" ∷ [] }
        ∷ record { namespace = Dir; parts = codes "c" ∷ [] }
        ∷ record { namespace = User; parts = codes "c" ∷ [] }
        ∷ record { namespace = System; parts = codes "c" ∷ [] }
        ∷ record { namespace = Default; parts = codes "a" ∷ [] }
        ∷ [] }
    ensures bare { (said : Meta)
        → array_texts said (codes "override") ≡ []
        → array_texts said (codes "namespace") ≡ []
        → array_texts said (codes "fallback") ≡ []
        → candidates (codes "a" ∷ []) said ≡
        record { namespace = Proc; parts = codes "a" ∷ [] }
        ∷ record { namespace = Dir; parts = codes "a" ∷ [] }
        ∷ record { namespace = User; parts = codes "a" ∷ [] }
        ∷ record { namespace = System; parts = codes "a" ∷ [] }
        ∷ record { namespace = Default; parts = codes "a" ∷ [] }
        ∷ [] }
{}
