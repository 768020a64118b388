//! Names of keys: parsed from texts, spelled, and ordered.
#![tactic(auto)]

mod arrays;
mod counting;
mod cutting;
mod faults;
mod glob;
mod measuring;
mod names;
mod owners;
mod parsing;
mod part_list;
mod plain;
mod raw_parts;
mod refusing;
mod spelling;
mod walking;

pub use faults::{Memory, NameFault};
pub use model_names::Namespace;
pub use names::KeyName;
pub use owners::{are_ascending, owner};
