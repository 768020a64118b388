//! Maps of keys as simpleini: the bytes of a file read, and a map written as its text.
#![tactic(auto)]

mod escapes;
mod meanings;
mod plain;
mod progress;
mod reading;
mod sides;
mod signs;
mod writing;

pub use reading::read;
pub use writing::write;
