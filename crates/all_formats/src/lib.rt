//! All formats of files that the store knows, behind the one trait.
#![tactic(auto)]

mod formats;

pub use formats::AllFormats;
