//! Files of lines, read one line after the other: the next line, and the names and values that stand in any file.
#![tactic(auto)]

mod lines;
mod texts;

pub use lines::{first_line, without_return};
pub use texts::{hand_on_memory, name_of, value_of};
