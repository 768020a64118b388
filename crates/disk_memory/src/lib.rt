//! A disk over memory that tells its contents, and whose calls fail as its maker asks.
#![tactic(auto)]

mod changes;
mod crashes;
mod mem_disks;
mod mem_files;
mod places;
mod torn;

pub use mem_disks::MemDisk;
