//! A store: the meaning of its files joined to the journal over its disk.
#![tactic(auto)]

mod closing;
mod committing;
mod cores;
mod faults;
mod flushing;
mod getting;
mod headed;
mod laws;
mod mounting;
mod opening;
mod preparing;
mod storing;
mod validating;
mod visible;

pub use closing::Closed;
pub use committing::{CommitFault, Done};
pub use cores::{Core, Plan};
pub use faults::{OpenFault, OpenRefused};
pub use getting::Got;
pub use laws::{a_core_stands_after_each_commit, a_prepared_set_may_be_committed};
pub use opening::{Opened, open_store};
