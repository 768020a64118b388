//! What a key's name is: its namespace and parts, the texts that spell it, and its order. Definitions for the crates
//! above, with the laws that join them.
#![tactic(auto)]

mod examples;
mod laws;
mod namespaces;

pub use examples::{
    globs_match_part_by_part, names_are_ordered_by_parts, refused_texts_have_their_refusals,
    refused_texts_spell_no_name, spelled_names_are_reduced, spellings_are_canonical,
    texts_have_their_names,
};
pub use laws::{
    a_canonical_spelling_spells_its_name, a_slash_in_front_means_cascading,
    a_spelled_text_has_no_refusal, a_text_without_refusal_spells_a_name,
    an_array_part_is_that_of_an_index, one_name_ties_with_itself_alone, one_spelling_one_name,
    one_text_spells_one_name, order_is_total, raw_parts_are_cut_at_bare_slashes,
    the_name_of_a_text_is_the_one_it_spells, the_test_of_names_at_or_below_decides,
    what_a_text_spells_is_well_formed,
};
pub use namespaces::Namespace;
