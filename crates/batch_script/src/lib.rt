//! Scripts of a batch: which sessions take which steps in which phase.
#![tactic(auto)]

mod commit_numbers;
mod counts;
mod examples;
mod faults;
mod items;
mod laws;
mod letters;
mod meta_words;
mod progress;
mod reading;
mod rows;
mod steps;
mod tries;
mod watch_rooms;
mod words;

pub use commit_numbers::{CommitNumber, LARGEST_COMMIT_NUMBER};
pub use counts::count_of;
pub use examples::{
    bytes_are_written_in_quotes, commits_are_numbered_from_1_to_1000000000,
    lines_have_their_places, merges_are_tried_from_1_to_100000_times,
    sessions_are_numbered_from_1_to_32, sessions_ascend_in_a_phase,
    watches_have_room_for_1_to_4096_changes, words_say_what_their_row_says,
};
pub use faults::ScriptFault;
pub use laws::{
    bytes_read_as_one_script_or_are_bad_at_one_line, lines_are_counted_by_line_feeds,
    proc_lines_have_keys_in_proc, sessions_ascend_in_each_phase,
};
pub use meta_words::MetaWord;
pub use reading::{is_too_long, parse_script};
pub use steps::{Phase, ProcLine, Script, Step, Steps};
pub use tries::{MOST_TRIES, Tries};
pub use watch_rooms::{LARGEST_WATCH_ROOM, WatchRoom};
