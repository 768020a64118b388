//! The laws of the general words.
ghost use Rattle.std.specs.Prelude.{◌≡◌, ◌≢◌, ℕ, ◌+◌, ◌<◌, ◌≤◌, ◌^◌, List, length, slice_get, Option, Some, None};
ghost use Rattle.std.specs.Bool.{Decides};
ghost use Rattle.std.specs.Cmp.{IsTotalOrder};
ghost use Rattle.std.specs.FinMap as map;
ghost use Rattle.std.specs.FinMap.{FinMap, IsAntisymmetric};
ghost use Rattle.general_words.specs.Fronts.{front};
ghost use Rattle.general_words.specs.Memory.{UnlessMemory};
ghost use Rattle.general_words.specs.Saturated.{saturated};
ghost use Rattle.general_words.specs.Searches.{first_some, IsFirstAnswer};
ghost use Rattle.general_words.specs.Texts.{is_text, text_cmp};

/// The test of texts says whether two lists of bytes are one.
pub fn the_test_of_texts_decides()
    ensures { (a b : List ℕ) → Decides (is_text a b) (a ≡ b) }
{}

/// Texts are in a total order, and only a text ties with itself.
pub fn the_order_of_texts_is_total()
    ensures total { IsTotalOrder text_cmp }
    ensures antisymmetric { IsAntisymmetric text_cmp }
{}

/// A search finds an answer where one is given, and none is given before it; it finds none where none is given.
pub fn the_first_answer_comes_before_all_others()
    ensures found { (answer : ℕ → Option ℕ) (xs : List ℕ) (y : ℕ) → first_some answer xs ≡ Some y
        → IsFirstAnswer answer xs y }
    ensures none { (answer : ℕ → Option ℕ) (xs : List ℕ) → first_some answer xs ≡ None → (i : ℕ) (x : ℕ)
        → Some x ≡ slice_get xs i → answer x ≡ None }
{}

/// A saturated number fits a `u64`, and is the number itself where that fits.
pub fn a_saturated_number_fits()
    ensures fits { (n : ℕ) → saturated n < 2 ^ 64 }
    ensures same { (n : ℕ) → n < 2 ^ 64 → saturated n ≡ n }
{}

/// What holds unless a fault is want of memory holds of every other fault.
pub fn want_of_memory_excuses_no_other_fault()
    ensures { (memory fault wanted : ℕ) → fault ≢ memory → UnlessMemory memory (wanted ≡ fault) fault → wanted ≡ fault }
{}

/// The map of a map's first entries grows by the next one, from the empty map to the whole.
pub fn entries_join_the_front_of_a_map_one_by_one()
    ensures none { (texts : FinMap text_cmp (List ℕ)) → front texts 0 ≡ map.empty }
    ensures next { (texts : FinMap text_cmp (List ℕ)) (i : ℕ) (entry : List ℕ × List ℕ)
        → Some entry ≡ slice_get (map.entries texts) i
        → front texts (i + 1) ≡ map.insert (front texts i) entry.0 entry.1 }
    ensures all { (texts : FinMap text_cmp (List ℕ)) (n : ℕ) → length (map.entries texts) ≤ n → front texts n ≡ texts }
{}

/// Of two values that are set at one key the last one stays.
pub fn of_two_values_the_last_stays()
    ensures { (texts : FinMap text_cmp (List ℕ)) (key first last : List ℕ)
        → map.insert (map.insert texts key first) key last ≡ map.insert texts key last }
{}

/// A key that is set is found, and nothing changes at any other key.
pub fn an_insertion_changes_one_key()
    ensures here { (texts : FinMap text_cmp (List ℕ)) (key text : List ℕ)
        → map.get (map.insert texts key text) key ≡ Some text }
    ensures elsewhere { (texts : FinMap text_cmp (List ℕ)) (key text other : List ℕ) → other ≢ key
        → map.get (map.insert texts key text) other ≡ map.get texts other }
{}
