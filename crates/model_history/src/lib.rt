//! What changes between maps, and the commits of an opening one after the other. Definitions for the crates above.
#![tactic(auto)]

mod examples;
mod laws;

pub use examples::{a_change_of_a_commit_weighs_its_texts, a_history_is_asked_behind_a_front};
pub use laws::{
    a_difference_leads_from_map_to_map, a_difference_tells_what_differs,
    changes_of_sorted_names_are_made_each, the_first_change_after_a_front_is_anothers,
    the_first_commit_after_a_front_touches_the_mount,
};
