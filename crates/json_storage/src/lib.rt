//! Reads and writes JSON files.
#![tactic(auto)]

mod arrays;
mod found;
mod kept;
mod names;
mod objects;
mod reading;
mod values;
mod writing;

pub use reading::read;
pub use writing::write;
