//! Three sets of keys that come from one are merged into one.
#![tactic(auto)]

mod choices;
mod fronts;
mod laws;
mod merging;
mod strategies;
mod walks;

pub use laws::the_side_that_changed_a_name_gives_it;
pub use merging::{Merge3Fault, merge3};
pub use strategies::{Strategy, strategy_of};
