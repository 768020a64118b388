//! A whole file of a disk, read with one call.
#![tactic(auto)]

mod reading;

pub use reading::{FileFault, FileRead, LONGEST_FILE, read_file};
