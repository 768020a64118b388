//! Maps of keys as hosts files: the bytes of a file read, and a map written as its text.
#![tactic(auto)]

mod comments;
mod entries;
mod holding;
mod meanings;
mod names;
mod progress;
mod reading;
mod weighed;
mod words;
mod writing;

pub use reading::read;
pub use writing::write;
