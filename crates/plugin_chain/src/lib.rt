//! A set of keys under its own specifications: what it comes to, and which rules its keys break then.
#![tactic(auto)]

mod booleans;
mod checking;
mod choosing;
mod defaults;
mod globs;
mod layers;
mod laying;
mod listing;
mod narrowing;
mod one_name;
mod spec_index;
mod spec_metas;
mod specifying;

pub use choosing::is_within;
pub use listing::{first_violation, violations};
pub use model_specified::Violation;
pub use one_name::specified_at;
pub use spec_metas::spec_meta;
pub use specifying::specified;
