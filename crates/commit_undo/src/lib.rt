//! Takes commits back: the changes that set what one of them changed to what was there before it.
#![tactic(auto)]

mod faults;
mod inverting;
mod overtaking;

pub use faults::InverseFault;
pub use inverting::inverse;
