//! The device phases of a commit over the journal, and what a crash may leave of a run of commits.
#![tactic(auto)]

mod laws;
mod phases;
mod runs;

pub use laws::{
    a_run_rests_between_its_calls, a_run_stands_from_now_on, a_run_without_a_fault_is_calm,
};
pub use phases::{begin, head, make_clean, make_room, store};
pub use runs::{close, commit, flush, open, read};
