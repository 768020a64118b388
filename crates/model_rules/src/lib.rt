//! The check rules: which texts are numbers, ranges and values of a type, and what a value breaks under its metadata.
//! Definitions for the crates above, with the laws that join them.
#![tactic(auto)]

mod breaches;
mod examples;
mod intervals;
mod kinds;
mod laws;

pub use breaches::Broken;
pub use examples::{
    numbers_have_their_values, ranges_have_their_intervals, texts_that_are_no_numbers,
    texts_that_are_no_ranges, types_have_their_rows,
};
pub use intervals::Interval;
pub use kinds::Kind;
pub use laws::{
    a_value_breaks_enum_once, a_value_breaks_range_once, a_value_breaks_type_once,
    one_item_one_interval, one_range_one_list, one_text_one_number,
};
