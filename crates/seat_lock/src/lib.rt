//! A lock between threads, whose seats know what they saw. The value under it stands for a list of entries, each with
//! its maker's number. What a turn finds begins with all that its seat had seen.
#![tactic(auto)]

mod bells;
mod board;
mod locks;
mod openings;
mod seats;
mod steps;
mod story;
mod turns;
mod views;

pub use locks::{Lock, NewLock, NoLock};
pub use seats::Seat;
pub use story::Storied;
pub use turns::Turn;
