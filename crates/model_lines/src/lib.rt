//! Files that are read line by line: their lines, what each leads to, the first bad line, the first key that a format
//! can't hold, and the laws of a format. Definitions for the crates above, with worked lines.
#![tactic(auto)]

mod examples;
mod laws;

pub use examples::{a_carriage_return_at_the_end_is_dropped, files_are_cut_at_line_feeds};
pub use laws::{lines_hold_no_line_feed, lines_read_as_they_were_ended};
