//! How texts and names are shown on one line.
#![tactic(auto)]

mod quoting;
mod showing;

pub use quoting::quoted;
pub use showing::{shown, shown_text};
