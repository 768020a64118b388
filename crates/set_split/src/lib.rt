//! Which file holds a key: the mounts that are involved in a parent, a key set split by the mounts that own its keys,
//! and the parts united again.
#![tactic(auto)]

mod laws;
mod mounts;
mod owning;
mod parts;
mod points;
mod splitting;
mod uniting;

pub use key_name::owner;
pub use laws::{nothing_is_involved_elsewhere, what_is_split_is_united_again};
pub use mounts::involved;
pub use owning::owned;
pub use parts::{Part, Parts};
pub use points::are_points;
pub use splitting::split;
pub use uniting::unite;
