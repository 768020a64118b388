//! The commits of an opening: a list, with an index of the last commit of each mount.
#![tactic(auto)]

mod commits;
mod histories;
mod indexes;
mod naming;
mod replaying;
mod weighing;

pub use commits::{Change, Commit};
pub use histories::History;
pub use replaying::make_changes;
pub use weighing::HEAVIEST_HISTORY;
