//! Laws of changes and histories.
ghost use Rattle.std.specs.Prelude.{◌≡◌, ℕ, ◌+◌, ◌<◌, ◌≤◌, true, false, List, length, slice_get, Option, Some, None};
ghost use Rattle.std.specs.FinMap as map;
ghost use Rattle.std.specs.Option.{unwrap_or};
ghost use Rattle.model_names.specs.Name.{Name};
ghost use Rattle.model_maps.specs.Entry.{Entry};
ghost use Rattle.model_maps.specs.KeyMap.{KeyMap};
ghost use Rattle.model_history.specs.Changes.{Changes, after, change_at, difference};
ghost use Rattle.model_history.specs.History.{Commit, changes_beside, first_after, first_change_after, touches};

/// The changes from one map to another, made on the first, give the second.
pub fn a_difference_leads_from_map_to_map()
    ensures { (before wanted : KeyMap) → after before (difference before wanted) ≡ wanted }
{}

/// A name changes exactly where the two maps have different entries there, and to what the second has.
pub fn a_difference_tells_what_differs()
    ensures at { (before wanted : KeyMap) (name : Name)
        → map.get (difference before wanted) name ≡ change_at before wanted name }
    ensures same { (before wanted : KeyMap) (name : Name) → map.get before name ≡ map.get wanted name
        → change_at before wanted name ≡ None }
    ensures none { (before wanted : KeyMap) (name : Name) → change_at before wanted name ≡ None
        → map.get before name ≡ map.get wanted name }
    ensures to { (before wanted : KeyMap) (name : Name) (new : Option Entry) → change_at before wanted name ≡ Some new
        → new ≡ map.get wanted name }
{}

/// A name has what its change gives it, and what it had where it has none.
pub fn changes_of_sorted_names_are_made_each()
    ensures { (keys : KeyMap) (changes : Changes) (name : Name)
        → map.get (after keys changes) name ≡ unwrap_or (map.get changes name) (map.get keys name) }
{}

/// The first commit behind a front that touches a mount does so, stands behind the front, and none between them does;
/// where none is told, none behind the front does.
pub fn the_first_commit_after_a_front_touches_the_mount()
    ensures behind { (history : List Commit) (mount front number : ℕ) → first_after history mount front ≡ Some number
        → front < number }
    ensures there { (history : List Commit) (mount front number : ℕ)
        → first_after history mount front ≡ Some (number + 1) → (commit : Commit)
        → slice_get history number ≡ Some commit → touches mount commit ≡ true }
    ensures within { (history : List Commit) (mount front number : ℕ) → first_after history mount front ≡ Some number
        → number ≤ length history }
    ensures first { (history : List Commit) (mount front number at : ℕ) (commit : Commit)
        → first_after history mount front ≡ Some number → front ≤ at → at + 1 < number
        → slice_get history at ≡ Some commit → touches mount commit ≡ false }
    ensures none { (history : List Commit) (mount front at : ℕ) (commit : Commit)
        → first_after history mount front ≡ None → front ≤ at → slice_get history at ≡ Some commit
        → touches mount commit ≡ false }
{}

/// The first change of a name behind a front that isn't by a handle is another handle's, stands behind the front, and
/// none between them is such; where none is told, none behind the front is.
pub fn the_first_change_after_a_front_is_anothers()
    ensures behind { (history : List Commit) (name : Name) (front handle number : ℕ)
        → first_change_after history name front handle ≡ Some number → front < number }
    ensures there { (history : List Commit) (name : Name) (front handle number : ℕ)
        → first_change_after history name front handle ≡ Some (number + 1) → (commit : Commit)
        → slice_get history number ≡ Some commit → changes_beside name handle commit ≡ true }
    ensures within { (history : List Commit) (name : Name) (front handle number : ℕ)
        → first_change_after history name front handle ≡ Some number → number ≤ length history }
    ensures first { (history : List Commit) (name : Name) (front handle number at : ℕ) (commit : Commit)
        → first_change_after history name front handle ≡ Some number → front ≤ at → at + 1 < number
        → slice_get history at ≡ Some commit → changes_beside name handle commit ≡ false }
    ensures none { (history : List Commit) (name : Name) (front handle at : ℕ) (commit : Commit)
        → first_change_after history name front handle ≡ None → front ≤ at → slice_get history at ≡ Some commit
        → changes_beside name handle commit ≡ false }
{}
