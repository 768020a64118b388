//! What becomes of a set of keys, without a disk: what a handle keeps, what a prepare makes or refuses, and what the
//! history decides of a prepared set.
#![tactic(auto)]

mod accepting;
mod change_sets;
mod counting;
mod entries;
mod faults;
mod files;
mod getting;
mod judging;
mod long_texts;
mod prepared;
mod preparing;
mod records;
mod renewing;
mod seeing;
mod tables;
mod texts;
mod touching;
mod walking;
mod wanting;
mod weighing;
mod writing;

pub use change_sets::ChangeSet;
pub use counting::any_counts_by_key;
pub use faults::PrepareFault;
pub use getting::{Getting, first_bad, get};
pub use judging::{Late, judge};
pub use prepared::{Prepared, Seen};
pub use preparing::prepare;
pub use records::{Fetched, Record};
