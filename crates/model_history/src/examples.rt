//! Worked examples.
ghost use Rattle.std.specs.Prelude.{◌≡◌, [], ◌∷◌, codes, Some, None};
ghost use Rattle.model_names.specs.declared.namespaces.Namespace.TheVariants.{User};
ghost use Rattle.model_maps.specs.Entry.{plain_entry};
ghost use Rattle.model_history.specs.History.{first_after, history_weight, weight_of_commit};

/// A commit weighs 64; a change 16, the bytes of its name's canonical spelling and those of its new entry; a removal
/// has no entry. The name `user:/a` has 7 bytes.
pub fn a_change_of_a_commit_weighs_its_texts()
    ensures none { weight_of_commit (record { handle = 1; touched = []; changes = [] }) ≡ 64 }
    ensures new { weight_of_commit (record { handle = 1; touched = 0 ∷ []; changes = (record { namespace = User; parts = codes "a" ∷ [] }, Some (plain_entry (codes "xyz"))) ∷ [] })
        ≡ 90 }
    ensures removed { weight_of_commit (record { handle = 1; touched = 0 ∷ []; changes = (record { namespace = User; parts = codes "a" ∷ [] }, None) ∷ [] })
        ≡ 87 }
    ensures all { history_weight (record { handle = 1; touched = []; changes = [] } ∷ record { handle = 2; touched = []; changes = [] } ∷ [])
        ≡ 128 }
{}

/// Of three commits that touch the mounts 0, 1 and again 0, the first that touches a mount behind a front.
pub fn a_history_is_asked_behind_a_front()
    ensures first { first_after (record { handle = 1; touched = 0 ∷ []; changes = [] } ∷ record { handle = 2; touched = 1 ∷ []; changes = [] } ∷ record { handle = 1; touched = 0 ∷ []; changes = [] } ∷ []) 0 0
        ≡ Some 1 }
    ensures later { first_after (record { handle = 1; touched = 0 ∷ []; changes = [] } ∷ record { handle = 2; touched = 1 ∷ []; changes = [] } ∷ record { handle = 1; touched = 0 ∷ []; changes = [] } ∷ []) 0 1
        ≡ Some 3 }
    ensures other { first_after (record { handle = 1; touched = 0 ∷ []; changes = [] } ∷ record { handle = 2; touched = 1 ∷ []; changes = [] } ∷ record { handle = 1; touched = 0 ∷ []; changes = [] } ∷ []) 1 2
        ≡ None }
{}
