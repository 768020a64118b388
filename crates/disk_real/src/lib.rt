//! A disk over the files of a real folder, one user of the folder at a time.
#![tactic(auto)]

mod files;
mod locking;
mod making;
mod opening;
mod overlay;
mod real_disks;

pub use real_disks::RealDisk;
