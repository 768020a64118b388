//! The checks of types and enumerations: which rule a value breaks under its metadata.
#![tactic(auto)]

mod checks;
mod listings;
mod numbers;
mod types;

pub use checks::{check_enum, check_listed, check_type};
pub use listings::Listing;
pub use numbers::{number_of, signed_number_of};
pub use types::kind_of;
