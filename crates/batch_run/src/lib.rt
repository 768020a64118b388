//! The sessions of a batch, each with a handle of its own: phase by phase they take their steps on threads, and between
//! phases all handles meet. A script is played so on a store that was just opened, from there to its close.
#![tactic(auto)]

mod editing;
mod exchanges;
mod flushing;
mod handles;
mod laws;
mod meetings;
mod numbers;
mod phases;
mod places;
mod playing;
mod proc_keys;
mod rooms;
mod running;
mod seating;
mod sessions;
mod showing;
mod turns;
mod watching;
mod workers;
mod workspaces;

pub use laws::what_bytes_read_as_can_be_played;
pub use numbers::sessions_of;
pub use playing::{Played, play_on};
pub use running::{Sessions, run_sessions};
pub use sessions::Session;
pub use workspaces::Workspace;
