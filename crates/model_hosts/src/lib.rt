//! The format of hosts files: which bytes read as which map, which are bad at which line, the text of a map, and which
//! maps can be stored. Definitions for the crates above, with their laws and worked lines.
#![tactic(auto)]

mod examples;
mod laws;

ghost use Rattle.model_formats.specs.Format.{IsLawful};
ghost use Rattle.model_hosts.specs.Text.{hosts};

pub use examples::{
    a_family_goes_by_its_colon, comments_are_numbered_items, entries_have_their_words,
    files_are_bad_at_their_first_bad_line, groups_have_their_lines, hosts_do_not_go_by_keys,
    lines_without_reading, maps_break_at_their_first_breaking_key, maps_have_their_texts,
    own_comments_come_last, small_files_read, some_lines_are_skipped_or_wait,
};
pub use laws::{
    a_map_can_be_stored_or_has_one_first_breaking_key, a_text_reads_as_its_map,
    a_text_reads_as_no_other_map, bytes_have_a_reading_or_one_bad_line, bytes_read_as_one_map,
    different_maps_have_different_texts, no_bytes_read_as_no_keys, what_reads_is_storable,
};

/// The laws of a format as one record. That a map can be stored or breaks at one key follows from it; this and the
/// others stand by themselves too.
pub fn hosts_is_lawful()
    ensures { IsLawful hosts }
{}
