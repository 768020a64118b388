//! The format simpleini: which bytes read as which map, which are bad at which line, the text of a map, and which maps
//! can be stored. Definitions for the crates above, with their laws and worked lines.
#![tactic(auto)]

mod examples;
mod laws;
mod signs;

ghost use Rattle.model_formats.specs.Format.{IsLawful};
ghost use Rattle.model_ini.specs.Text.{ini};

pub use examples::{
    backslashes_pair_from_the_left, blanks_at_the_ends_are_dropped,
    entries_are_cut_at_the_first_equals_sign, escapes_stand_for_their_bytes,
    files_are_bad_at_their_first_bad_line, keys_have_their_lines, lines_without_reading,
    maps_break_at_their_first_breaking_key, maps_have_their_texts, small_files_read,
    some_lines_are_skipped,
};
pub use laws::{
    a_map_can_be_stored_or_has_one_first_breaking_key, a_text_reads_as_its_map,
    a_text_reads_as_no_other_map, bytes_have_a_reading_or_one_bad_line, bytes_read_as_one_map,
    different_maps_have_different_texts, no_bytes_read_as_no_keys, simpleini_goes_by_keys,
    what_reads_is_storable,
};
pub use signs::Sign;

/// The laws of a format as one record. That a map can be stored or breaks at one key follows from it; this and the
/// others stand by themselves too.
pub fn simpleini_is_lawful()
    ensures { IsLawful ini }
{}
