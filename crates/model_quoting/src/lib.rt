//! How texts and names are shown on one line. Definitions for the crates above, with worked examples and their laws.
#![tactic(auto)]

ghost use Rattle.std.specs.Prelude.{◌≡◌, ℕ, ◌≤◌, true, List, [], ◌∷◌, ◌++◌, codes};
ghost use Rattle.std.specs.List.{list_all};
ghost use Rattle.model_names.specs.Name.{Name};
ghost use Rattle.model_names.specs.WellFormed.{IsName};
ghost use Rattle.model_quoting.specs.Quoted.{is_line_byte, quoted, shown, shown_text};

/// Quotes, backslashes and control bytes are written with a backslash; a text with none of them and no blank stands
/// bare.
pub fn texts_are_quoted_where_needed()
    ensures bare { shown_text (codes "user:/sw/a") ≡ codes "user:/sw/a" }
    ensures empty { shown_text [] ≡ [] }
    ensures blank { shown_text (codes "a b") ≡ codes "\"a b\"" }
    ensures escapes { quoted (34 ∷ 92 ∷ 10 ∷ 13 ∷ 9 ∷ 1 ∷ 127 ∷ []) ≡ codes "\"\\\"\\\\\\n\\r\\t\\x01\\x7f\"" }
{}

/// Different texts are quoted differently, so a quoted text tells which text it is.
pub fn one_quoted_text_one_text()
    ensures { (a b : List ℕ) → quoted a ≡ quoted b → a ≡ b }
{}

/// Different texts are shown differently, whether or not one of them needs quotes.
pub fn one_shown_text_one_text()
    ensures { (a b : List ℕ) → shown_text a ≡ shown_text b → a ≡ b }
{}

/// A text in quotes ends at its last quote, and what is shown ends at the next blank or control byte, so that what
/// stands behind it can be told.
pub fn texts_on_a_line_are_told_from_what_follows()
    ensures in_quotes { (a b rest other : List ℕ) → quoted a ++ rest ≡ quoted b ++ other → (a ≡ b) × (rest ≡ other) }
    ensures shown { (a b rest other : List ℕ) (blank end : ℕ) → blank ≤ 32 → end ≤ 32
        → shown_text a ++ blank ∷ rest ≡ shown_text b ++ end ∷ other → (a ≡ b) × (blank ∷ rest ≡ end ∷ other) }
{}

/// Well-formed names that are shown alike are one.
pub fn one_shown_name_one_name()
    ensures { (a b : Name) → IsName a → IsName b → shown a ≡ shown b → a ≡ b }
{}

/// What is quoted or shown stands on one line: it has no control byte, and so no line feed.
pub fn what_is_shown_stands_on_one_line()
    ensures in_quotes { (text : List ℕ) → list_all is_line_byte (quoted text) ≡ true }
    ensures texts { (text : List ℕ) → list_all is_line_byte (shown_text text) ≡ true }
    ensures names { (name : Name) → list_all is_line_byte (shown name) ≡ true }
{}
