//! What it is to undo a commit: its inverse, and the later commits that stand in the way. Definitions for the crates
//! above.
#![tactic(auto)]

mod examples;
mod laws;

pub use examples::{a_commit_is_told_by_what_overtakes_it, an_inverse_gives_what_was_before};
pub use laws::{
    a_commit_is_overtaken_by_the_first_later_one_with_a_name_of_it,
    an_inverse_sets_the_names_of_its_commit_back,
    names_of_a_commit_that_is_there_stand_as_it_left_them, the_inverse_of_the_last_commit_is_there,
    undoing_the_last_commit_gives_the_map_before_it,
};
