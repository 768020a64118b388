//! A few values, texts and keys, worked: the definitions at concrete values.
ghost use Rattle.std.specs.Prelude.{◌≡◌, [], ◌∷◌, Some, None, true, negsuc, codes, Float, option_and_then};
ghost use Rattle.std.specs.FinMap as map;
ghost use Rattle.model_maps.specs.Entry.{plain_entry};
ghost use Rattle.model_maps.specs.KeyMap.{no_keys};
ghost use Rattle.serde_json.specs.Data.{unsigned, negative, float, null, boolean, number, string, array, object, no_items, item, no_members, member};
ghost use Rattle.serde_json.specs.Read.{read as value_of};
ghost use Rattle.serde_json.specs.Written.{compact_text};
ghost use Rattle.model_json.specs.Leaves.{leaves};
ghost use Rattle.model_json.specs.Tree.{tree, Fits};
ghost use Rattle.model_json.specs.Keys.{IsJsonKey, BreaksAt};
ghost use Rattle.model_json.specs.Reading.{name_at, Reads, IsBadAt};
ghost use Rattle.model_json.specs.Text.{with_arrays};

/// A member's part is its name, and an element's that of its index; `true` is a text; an object without keys gives
/// nothing.
pub fn leaves_stand_at_their_parts()
    ensures members { leaves (object (member (codes "on") (boolean true) (member (codes "ports") (array (item (string (codes "80")) (item (string (codes "81")) no_items))) no_members)))
        ≡ Some ((codes "on" ∷ [], codes "true") ∷ (codes "ports" ∷ codes "#0" ∷ [], codes "80") ∷ (codes "ports" ∷ codes "#1" ∷ [], codes "81") ∷ []) }
    ensures nothing { leaves (object (member (codes "a") (object no_members) (member (codes "b") (array no_items) no_members)))
        ≡ Some [] }
{}

/// An integer of 64 bits has its digits, and no other number has a reading.
pub fn integers_have_their_digits()
    ensures plain { leaves (number (unsigned 80)) ≡ Some (([], codes "80") ∷ []) }
    ensures signed { leaves (number (negative (negsuc 4))) ≡ Some (([], codes "-5") ∷ []) }
    ensures other { (x : Float) → leaves (number (float x)) ≡ None }
{}

/// A null has no reading, nor has an element without keys, nor a member's name that looks like an array's, with keys or
/// without.
pub fn values_without_reading()
    ensures nothing { leaves null ≡ None }
    ensures element { leaves (array (item (object no_members) no_items)) ≡ None }
    ensures name { leaves (object (member (codes "#0") (string (codes "b")) no_members)) ≡ None }
    ensures misspelled { leaves (object (member (codes "#__1") (object no_members) no_members)) ≡ None }
{}

/// Of two members of one name the last counts, and members stand by their names. Blanks may stand between tokens.
pub fn texts_are_values()
    ensures twice { option_and_then leaves (value_of (codes "{\"b\":\"3\",\"a\":\"1\", \"a\" : \"2\"}\n"))
        ≡ Some ((codes "a" ∷ [], codes "2") ∷ (codes "b" ∷ [], codes "3") ∷ []) }
    ensures escapes { option_and_then leaves (value_of (codes "{\"a\\/b\":\"\\u0041\\n\"}"))
        ≡ Some ((codes "a/b" ∷ [], codes "A\n") ∷ []) }
    ensures lone { value_of (codes "{\"a\":\"\\ud800\"}") ≡ None }
    ensures behind { value_of (codes "{} x") ≡ None }
    ensures mark { value_of (239 ∷ 187 ∷ 191 ∷ codes "{}") ≡ None }
    ensures minus_zero { option_and_then leaves (value_of (codes "{\"a\":-0}")) ≡ None }
    ensures fraction { option_and_then leaves (value_of (codes "{\"a\":1.0}")) ≡ None }
{}

/// Every value is written as a string, and names that are array parts make an array.
pub fn objects_have_their_texts()
    ensures whole { compact_text (with_arrays (tree ((codes "sw" ∷ codes "on" ∷ [], codes "true") ∷ (codes "sw" ∷ codes "ports" ∷ codes "#0" ∷ [], codes "80") ∷ (codes "sw" ∷ codes "ports" ∷ codes "#1" ∷ [], codes "81") ∷ [])))
        ≡ codes "{\"sw\":{\"on\":\"true\",\"ports\":[\"80\",\"81\"]}}" }
    ensures nothing { compact_text (with_arrays (tree [])) ≡ codes "{}" }
{}

/// A key doesn't fit where another stands below it; that one does.
pub fn a_key_gives_way_to_those_below()
    ensures above { Fits (codes "a" ∷ []) (tree ((codes "a" ∷ [], codes "1") ∷ (codes "a" ∷ codes "b" ∷ [], codes "2") ∷ []))
        → ⊥ }
    ensures below { Fits (codes "a" ∷ codes "b" ∷ []) (tree ((codes "a" ∷ [], codes "1") ∷ (codes "a" ∷ codes "b" ∷ [], codes "2") ∷ [])) }
{}

/// No key fits at a place where names and array parts are mixed, nor where an array part before one is missing.
pub fn parts_side_by_side_are_of_one_kind()
    ensures items { Fits (codes "a" ∷ codes "#1" ∷ []) (tree ((codes "a" ∷ codes "#0" ∷ [], codes "1") ∷ (codes "a" ∷ codes "#1" ∷ [], codes "2") ∷ [])) }
    ensures mixed { Fits (codes "a" ∷ codes "x" ∷ []) (tree ((codes "a" ∷ codes "#0" ∷ [], codes "1") ∷ (codes "a" ∷ codes "x" ∷ [], codes "2") ∷ []))
        → ⊥ }
    ensures gap { Fits (codes "a" ∷ codes "#0" ∷ []) (tree ((codes "a" ∷ codes "#0" ∷ [], codes "1") ∷ (codes "a" ∷ codes "#2" ∷ [], codes "2") ∷ []))
        → ⊥ }
{}

/// A key of the whole object is no element.
pub fn no_element_stands_at_the_top()
    ensures { IsJsonKey (map.insert no_keys (name_at (codes "#0" ∷ [])) (plain_entry [])) (name_at (codes "#0" ∷ [])) (plain_entry [])
        → ⊥ }
{}

/// Of `/a` and `/a/b` the first breaks.
pub fn a_map_breaks_at_its_first_breaking_key()
    ensures { BreaksAt (map.insert (map.insert no_keys (name_at (codes "a" ∷ codes "b" ∷ [])) (plain_entry (codes "2"))) (name_at (codes "a" ∷ [])) (plain_entry (codes "1"))) (name_at (codes "a" ∷ [])) }
{}

/// An object without members reads as no keys; a null and a lone text make a file bad at its first line.
pub fn small_files_read_or_are_bad()
    ensures nothing { Reads (codes "{ }\n") no_keys }
    ensures no_value { IsBadAt (codes "{\"a\":null}\n") 1 }
    ensures no_object { IsBadAt (codes "\n\"a\"") 1 }
{}
