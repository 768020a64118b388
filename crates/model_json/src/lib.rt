//! The format of JSON files: which bytes read as which map, the text of a map, and which maps can be stored.
//! Definitions for the crates above, with their laws and worked values.
#![tactic(auto)]

mod examples;

ghost use Rattle.std.specs.Prelude.{◌≡◌, ◌≤◌, ℕ, List, Some, T, length, map};
ghost use Rattle.std.specs.FinMap.{is_sorted};
ghost use Rattle.model_names.specs.ArrayPart.{last_index};
ghost use Rattle.model_names.specs.Order.{name_cmp};
ghost use Rattle.model_formats.specs.Format.{IsLawful};
ghost use Rattle.serde_json.specs.Data.{Data};
ghost use Rattle.serde_json.specs.Read.{read};
ghost use Rattle.model_json.specs.Leaves.{Leaf, leaves};
ghost use Rattle.model_json.specs.Reading.{key_of};
ghost use Rattle.model_json.specs.Text.{json_files};

pub use examples::{
    a_key_gives_way_to_those_below, a_map_breaks_at_its_first_breaking_key,
    integers_have_their_digits, leaves_stand_at_their_parts, no_element_stands_at_the_top,
    objects_have_their_texts, parts_side_by_side_are_of_one_kind, small_files_read_or_are_bad,
    texts_are_values, values_without_reading,
};

/// The laws of a format as one record. That a map can be stored or breaks at one key follows from it.
pub fn json_files_is_lawful()
    ensures { IsLawful json_files }
{}

/// The leaves of the value that a text is stand in name order, each once: a reading asks no more of a text by asking
/// for that.
pub fn what_is_read_ascends()
    ensures { (bytes : List ℕ) (d : Data) (found : List Leaf) → read bytes ≡ Some d → leaves d ≡ Some found
        → length found ≤ last_index → T (is_sorted name_cmp (map key_of found)) }
{}
