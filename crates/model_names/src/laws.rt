//! The laws of names that everything above stands on.
ghost use Rattle.std.specs.Prelude.{◌≡◌, ◌≤◌, ◌∷◌, List, ℕ, None, Some, true};
ghost use Rattle.std.specs.Bool.{Decides};
ghost use Rattle.std.specs.Cmp.{IsTotalOrder};
ghost use Rattle.std.specs.FinMap.{IsAntisymmetric};
ghost use Rattle.std.specs.List.{flat_map};
ghost use Rattle.std.specs.Str.{IsUtf8};
ghost use Rattle.model_names.specs.declared.namespaces.Namespace.TheVariants.{Cascading};
ghost use Rattle.model_names.specs.ArrayPart.{IsArrayPart, array_part, last_index};
ghost use Rattle.model_names.specs.Below.{IsBelowOrSame, is_at_or_below};
ghost use Rattle.model_names.specs.Name.{Name};
ghost use Rattle.model_names.specs.NameOf.{name_of};
ghost use Rattle.model_names.specs.Order.{name_cmp};
ghost use Rattle.model_names.specs.RawCuts.{AreCut};
ghost use Rattle.model_names.specs.RawParts.{raw_parts};
ghost use Rattle.model_names.specs.Refuses.{Refusal, begins_with_slash, refusal_of};
ghost use Rattle.model_names.specs.Spelling.{spelling};
ghost use Rattle.model_names.specs.Spells.{Spells};
ghost use Rattle.model_names.specs.WellFormed.{IsName};

/// A text spells at most one name.
pub fn one_text_spells_one_name()
    ensures { (text : List ℕ) (a b : Name) → Spells text a → Spells text b → a ≡ b }
{}

/// A text that spells a name has no refusal.
pub fn a_spelled_text_has_no_refusal()
    ensures { (text : List ℕ) (name : Name) → Spells text name → refusal_of text ≡ None }
{}

/// A text that has no refusal spells a name.
pub fn a_text_without_refusal_spells_a_name()
    ensures { (text : List ℕ) → IsUtf8 text → refusal_of text ≡ None → (name : Name) × Spells text name }
{}

/// The function from texts to names gives a name exactly where the text spells it, and none where the text is refused.
pub fn the_name_of_a_text_is_the_one_it_spells()
    ensures spelled { (text : List ℕ) (name : Name) → Spells text name → name_of text ≡ Some name }
    ensures given { (text : List ℕ) (name : Name) → name_of text ≡ Some name → Spells text name }
    ensures refused { (text : List ℕ) (refusal : Refusal) → refusal_of text ≡ Some refusal → name_of text ≡ None }
{}

/// The raw parts of a text, each behind a slash, are the text behind its first slash. None of them has a bare slash,
/// and each slash between two of them is bare.
pub fn raw_parts_are_cut_at_bare_slashes()
    ensures joined { (bytes : List ℕ) → flat_map (λ raw. 47 ∷ raw) (raw_parts bytes) ≡ 47 ∷ bytes }
    ensures cut { (bytes : List ℕ) → AreCut (raw_parts bytes) }
{}

/// The canonical spelling of a well-formed name spells it.
pub fn a_canonical_spelling_spells_its_name()
    ensures { (name : Name) → IsName name → Spells (spelling name) name }
{}

/// What a text spells is well formed.
pub fn what_a_text_spells_is_well_formed()
    ensures { (text : List ℕ) (name : Name) → Spells text name → IsName name }
{}

/// Well-formed names that are spelled alike are one.
pub fn one_spelling_one_name()
    ensures { (a b : Name) → IsName a → IsName b → spelling a ≡ spelling b → a ≡ b }
{}

/// A text with a slash in front spells a cascading name only, and such a name is spelled so.
pub fn a_slash_in_front_means_cascading()
    ensures texts { (text : List ℕ) (name : Name) → begins_with_slash text ≡ true → Spells text name
        → name.namespace ≡ Cascading }
    ensures spellings { (name : Name) → name.namespace ≡ Cascading → begins_with_slash (spelling name) ≡ true }
{}

/// A part stands for an item of an array exactly where it is the part of an index.
pub fn an_array_part_is_that_of_an_index()
    ensures index { (part : List ℕ) → IsArrayPart part
        → (index : ℕ) × (index ≤ last_index) × (part ≡ array_part index) }
    ensures part { (index : ℕ) → index ≤ last_index → IsArrayPart (array_part index) }
{}

/// The test of the names at or below a name tells just those that are it or below it.
pub fn the_test_of_names_at_or_below_decides()
    ensures { (above name : Name) → Decides (is_at_or_below above name) (IsBelowOrSame name above) }
{}

/// The order of names is total.
pub fn order_is_total()
    ensures { IsTotalOrder name_cmp }
{}

/// No two names share a place in the order.
pub fn one_name_ties_with_itself_alone()
    ensures { IsAntisymmetric name_cmp }
{}
