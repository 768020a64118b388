//! Counts of steps that only proofs see: a program that runs counts nothing. A step is one comparison of two keys.
#![tactic(auto)]

mod steps;

pub use steps::{Steps, compare_counted};
