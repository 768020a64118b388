//! Generated runs: sessions that write keys of their own beside each other, and what their keys come to.
#![tactic(auto)]

mod examples;
mod keys;
mod laws;
mod scripts;
mod tallies;

pub use examples::{a_script_of_one_round, summaries_of_some_rounds, tallies_of_some_rounds};
pub use laws::{
    a_generated_script_can_be_played, a_key_is_written_by_one_session_in_every_tenth_round,
};
pub use scripts::{MOST_ROUNDS, gen_script};
pub use tallies::{Tally, summary, tally_of};
