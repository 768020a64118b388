//! The check of ranges: which rule a value breaks under its metadata.
#![tactic(auto)]

mod checks;
mod items;
mod ranges;

pub use checks::check_range;
