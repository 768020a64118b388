//! What a batch prints: the replies of its sessions, phase by phase, and the history of its commits.
#![tactic(auto)]

mod change_lines;
mod commit_lines;
mod examples;
mod laws;
mod lines;
mod news_lines;
mod printing;
mod replying;
mod statuses;

pub use examples::{
    a_batch_tells_its_phases_and_its_history,
    a_commit_tells_its_session_its_metadata_and_its_removals, a_merge_tells_its_tries_and_its_end,
    a_poll_tells_the_last_changes_and_how_many_it_left_out, a_status_tells_the_worst_reply,
    an_undo_tells_its_commit_or_why_there_is_none,
};
pub use laws::the_text_tells_the_batch;
pub use printing::print_batch;
pub use statuses::status_of;
