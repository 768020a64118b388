//! Maps of keys as dumps: the bytes of a file read, and a map written as its text.
#![tactic(auto)]

mod entry_so_far;
mod pieces;
mod progress;
mod reading;
mod records;
mod texts;
mod writing;

pub use reading::read;
pub use writing::write;
