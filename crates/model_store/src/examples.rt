//! Worked rows.
ghost use Rattle.std.specs.Prelude.{◌≡◌, ℕ, true, false, nat_eq, if◌then◌else◌, [], ◌∷◌, Some, None};
ghost use Rattle.std.specs.FinMap as map;
ghost use Rattle.model_maps.specs.KeyMap.{KeyMap, no_keys};
ghost use Rattle.model_history.specs.History.{replay};
ghost use Rattle.model_store.specs.Fitting.{NotFetched};
ghost use Rattle.model_store.specs.Records.{seen_from};
ghost use Rattle.model_store.specs.Store.{Store, counts_keys, formats_of};
ghost use Rattle.model_store.specs.Verdicts.{Conflict, IsEarly, IsLate, Same, blocking, first_same};
ghost use Rattle.model_store.specs.Worked.{by_turns, name_b, name_c, one, one_point, taking};

use storage_api::Formats;

/// A set at a parent that involves the mounts 0 and 2, of which its handle has seen mount 0 alone, is refused for mount
/// 2, whatever else is wrong with it.
pub fn an_unseen_mount_is_refused_first<F: Formats>(_formats: &F)
    ensures { (store : Store) (keys : KeyMap) (front : ℕ)
        → IsEarly (formats_of F.Formats) store (record { handle = 1; committed = 0; involved = 0 ∷ 2 ∷ []; fronts = λ m. if nat_eq m 0 then Some front else None; keys = keys; touched = 0 ∷ []; changes = map.empty; aside = 0 }) (Some (NotFetched 2)) }
{}

/// A set that touches no mount comes to nothing, whatever others have stored.
pub fn a_set_without_changes_comes_to_nothing<F: Formats>(_formats: &F)
    ensures { (store : Store) (keys : KeyMap)
        → IsLate (formats_of F.Formats) store (record { handle = 2; touched = 0 ∷ []; changes = [] } ∷ []) keys (record { handle = 1; committed = 0; involved = 0 ∷ []; fronts = λ m. Some 0; keys = no_keys; touched = []; changes = map.empty; aside = 3 }) (Same 3) }
{}

/// Of three commits the handle saw the first. It touches the mounts 0 and 1, of which another handle's commits touched
/// mount 1 first and then 0: where both count by their backends the lowest mount is told, with its commit. Once all
/// three are seen nothing blocks.
pub fn the_lowest_blocked_mount_is_told<F: Formats>(_formats: &F)
    ensures told { (store : Store) (keys : KeyMap) → ((m : ℕ) → counts_keys store m ≡ false)
        → IsLate (formats_of F.Formats) store (record { handle = 1; touched = 0 ∷ 1 ∷ []; changes = [] } ∷ record { handle = 2; touched = 1 ∷ []; changes = [] } ∷ record { handle = 2; touched = 0 ∷ []; changes = [] } ∷ []) keys (record { handle = 1; committed = 0; involved = 0 ∷ 1 ∷ []; fronts = λ m. Some 1; keys = no_keys; touched = 0 ∷ 1 ∷ []; changes = map.empty; aside = 0 }) (Conflict 0 3) }
    ensures seen { (store : Store) → ((m : ℕ) → counts_keys store m ≡ false)
        → blocking store (record { handle = 1; touched = 0 ∷ 1 ∷ []; changes = [] } ∷ record { handle = 2; touched = 1 ∷ []; changes = [] } ∷ record { handle = 2; touched = 0 ∷ []; changes = [] } ∷ []) (record { handle = 1; committed = 0; involved = 0 ∷ 1 ∷ []; fronts = λ m. Some 3; keys = no_keys; touched = 0 ∷ 1 ∷ []; changes = map.empty; aside = 0 }) 0
        ≡ None }
{}

/// Two handles count one mount by key from no commit on, and then commit by turns. What the other changed blocks the
/// first where it changes the same name behind its front; what it changed itself doesn't.
pub fn by_key_a_change_of_the_same_name_blocks()
    ensures same { first_same one_point by_turns (taking name_b 0) 0 0 ≡ Some 2 }
    ensures own { first_same one_point by_turns (taking name_c 0) 0 0 ≡ None }
    ensures seen { first_same one_point by_turns (taking name_b 2) 0 2 ≡ None }
{}

/// The first handle has of the mount then what it had and its own changes, and not what the other changed.
pub fn by_key_a_handle_keeps_its_own_changes()
    ensures own { map.get (seen_from true no_keys by_turns 1 0) name_c ≡ Some one }
    ensures others { map.get (seen_from true no_keys by_turns 1 0) name_b ≡ None }
    ensures present { map.get (replay no_keys by_turns) name_b ≡ Some one }
{}
