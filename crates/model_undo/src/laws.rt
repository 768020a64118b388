//! Laws of inverses.
ghost use Rattle.std.specs.Prelude.{◌≡◌, ℕ, ◌+◌, ◌-◌, ◌<◌, ◌++◌, ◌∷◌, [], true, false, List, length, take, Some, None};
ghost use Rattle.std.specs.FinMap as map;
ghost use Rattle.model_names.specs.Name.{Name};
ghost use Rattle.model_maps.specs.KeyMap.{KeyMap};
ghost use Rattle.model_history.specs.Changes.{changed_by};
ghost use Rattle.model_history.specs.History.{Commit, replay};
ghost use Rattle.model_undo.specs.Undoing.{IsThere, Overtakes, changes_made, commit_at, first_name, inverse, is_changed, overtaken};

/// To undo the last commit gives the map of all before it, whatever the history is: legal or not, and with names that
/// stand twice in a commit.
pub fn undoing_the_last_commit_gives_the_map_before_it()
    ensures { (start : KeyMap) (history : List Commit) (last : Commit)
        → changed_by (inverse start (history ++ last ∷ []) (length history + 1)) (replay start (history ++ last ∷ []))
        ≡ replay start history }
{}

/// The last commit is overtaken by none.
pub fn the_inverse_of_the_last_commit_is_there()
    ensures { (history : List Commit) (last : Commit) → IsThere (history ++ last ∷ []) (length history + 1) }
{}

/// Where the inverse is there, each name of the commit has in the present map what it had right behind the commit.
pub fn names_of_a_commit_that_is_there_stand_as_it_left_them()
    ensures { (start : KeyMap) (history : List Commit) (number : ℕ) (name : Name) → IsThere history number
        → is_changed (changes_made history number) name ≡ true
        → map.get (replay start history) name ≡ map.get (replay start (take number history)) name }
{}

/// An inverse gives each name of its commit what it had before that, on whatever map it is made, and leaves all other
/// names.
pub fn an_inverse_sets_the_names_of_its_commit_back()
    ensures back { (start keys : KeyMap) (history : List Commit) (number : ℕ) (name : Name)
        → is_changed (changes_made history number) name ≡ true
        → map.get (changed_by (inverse start history number) keys) name
        ≡ map.get (replay start (take (number - 1) history)) name }
    ensures other { (start keys : KeyMap) (history : List Commit) (number : ℕ) (name : Name)
        → is_changed (changes_made history number) name ≡ false
        → map.get (changed_by (inverse start history number) keys) name ≡ map.get keys name }
{}

/// What overtakes a commit is the first later one that changes one of its names; where none does, no later one changes
/// one.
pub fn a_commit_is_overtaken_by_the_first_later_one_with_a_name_of_it()
    ensures some { (history : List Commit) (number by : ℕ) (name : Name) → overtaken history number ≡ Some (by, name)
        → Overtakes history number by name }
    ensures none { (history : List Commit) (number at : ℕ) (other : Commit) → overtaken history number ≡ None
        → number < at → commit_at history at ≡ Some other
        → first_name (is_changed (changes_made history number)) other.changes ≡ None }
{}
