//! Worked examples, on a history of three commits: the first sets two keys, the second one of them anew, the third
//! takes both away.
ghost use Rattle.std.specs.Prelude.{◌≡◌, [], ◌∷◌, take, Some, None};
ghost use Rattle.model_maps.specs.KeyMap.{no_keys};
ghost use Rattle.model_undo.specs.Undoing.{IsThere, inverse, overtaken};
ghost use Rattle.model_undo.specs.Worked.{name_a, name_b, one, three_commits, two};

/// The first commit is overtaken by the second, at the name that both change, and the second by the third; the third
/// can be undone. With the third away the second can be, and no commit has the number 0 or 4.
pub fn a_commit_is_told_by_what_overtakes_it()
    ensures first { overtaken three_commits 1 ≡ Some (2, name_b) }
    ensures second { overtaken three_commits 2 ≡ Some (3, name_b) }
    ensures third { IsThere three_commits 3 }
    ensures shorter { IsThere (take 2 three_commits) 2 }
    ensures zero { IsThere three_commits 0 → ⊥ }
    ensures beyond { IsThere three_commits 4 → ⊥ }
{}

/// The inverse of the first commit takes both keys away, that of the second sets one key back, and that of the third
/// both: each to what it had last.
pub fn an_inverse_gives_what_was_before()
    ensures first { inverse no_keys three_commits 1 ≡ (name_a, None) ∷ (name_b, None) ∷ [] }
    ensures second { inverse no_keys three_commits 2 ≡ (name_b, Some one) ∷ [] }
    ensures third { inverse no_keys three_commits 3 ≡ (name_a, Some one) ∷ (name_b, Some two) ∷ [] }
{}
