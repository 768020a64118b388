//! What a set of keys comes to under its own specifications, and which rules its keys break then. Definitions for the
//! crates above, with the laws that join them.
#![tactic(auto)]

mod examples;
mod laws;
mod violations;

pub use examples::{
    a_plain_name_makes_a_default, keys_come_by_namespace, patterns_match_paths_part_by_part,
    the_path_itself_comes_before_its_patterns, words_stand_for_bits,
};
pub use laws::{
    a_default_stands_in_place_of_what_was_there, a_list_begins_with_the_first_violation,
    a_set_has_a_first_violation_or_none, a_short_pattern_is_refused_by_the_matcher,
    a_text_that_is_no_pattern_breaks_its_rule, by_the_grammar_a_set_has_its_lists_of_violations,
    each_key_is_specified_by_itself, the_first_specification_key_with_a_name_gives_its_text,
    the_first_violation_begins_a_list, the_first_violation_needs_no_refusal_behind_it,
    the_tests_of_globs_decide, to_find_no_violations_needs_no_refusals,
    without_refusals_a_set_has_one_first_violation,
    without_refusals_a_set_has_one_list_of_violations,
};
pub use violations::Violation;
