//! General words and lemmas, of which everything above makes use: texts, searches, finite maps entry by entry,
//! saturated numbers, and answers for want of memory. Definitions and laws for the crates above; nothing here runs.
#![tactic(auto)]

mod laws;

pub use laws::{
    a_saturated_number_fits, an_insertion_changes_one_key,
    entries_join_the_front_of_a_map_one_by_one, of_two_values_the_last_stays,
    the_first_answer_comes_before_all_others, the_order_of_texts_is_total,
    the_test_of_texts_decides, want_of_memory_excuses_no_other_fault,
};
