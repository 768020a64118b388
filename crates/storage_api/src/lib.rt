//! What every file format is to a store: readings and texts of maps, with their laws, and why a file is no map or a map
//! has no file.
#![tactic(auto)]

mod formats;
mod refusals;

pub use formats::Formats;
pub use refusals::{ReadRefusal, WriteRefusal};
