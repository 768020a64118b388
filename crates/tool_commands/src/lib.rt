//! What each command makes of the keys that it got, and the lines that it puts on out and err.
#![tactic(auto)]

mod commands;
mod places;
mod refusing;
mod reports;
mod rule_lines;
mod status;
mod steps;

pub use commands::{parent_of, step};
pub use mount_table::own_point;
pub use places::every_key;
pub use refusing::{warn_of_name, warn_of_words};
pub use reports::{Report, tell, tell_bytes, warn, warn_not_found};
pub use rule_lines::tell_checked;
pub use status::{FAULT, OUT_OF_MEMORY, REFUSED, Status};
pub use steps::Step;
