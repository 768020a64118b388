//! A store that is played: any list of events by any number of handles, over one core.
#![tactic(auto)]

mod committing;
mod events;
mod flushing;
mod getting;
mod handles;
mod playing;
mod preparing;
mod running;

pub use events::{Answer, Event, Flushes, Skip};
pub use handles::Handles;
pub use playing::play;
pub use running::{Ran, run};
