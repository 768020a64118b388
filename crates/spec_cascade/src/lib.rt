//! The lookup of a name, which a cascading one makes in several namespaces.
#![tactic(auto)]

mod candidates;
mod founds;
mod laws;
mod lookups;
mod specified_lookups;

pub use founds::Found;
pub use laws::{a_path_has_its_candidates, words_name_namespaces};
pub use lookups::lookup;
pub use specified_lookups::lookup_specified;
