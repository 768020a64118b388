//! The top call of the tool: a single command, or a batch of sessions, from the words of a command line to what it
//! prints and the status that it ends with.
#![tactic(auto)]

mod generating;
mod one_word;
mod playing;
mod reporting;
mod rounds;
mod running;
mod tallying;
mod tasks;
mod top;
mod work;

pub use running::{run_batch, run_gen};
pub use tool_single::{
    Status, a_broken_journal_is_told_by_its_place, one_run, run_one, runs_have_one_history,
    what_is_stored_is_one_legal_commit, words_have_an_answer, words_have_one_answer,
};
pub use top::run;
