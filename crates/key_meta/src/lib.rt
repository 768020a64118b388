//! What keys carry beside their names: texts, and lists of them.
#![tactic(auto)]

mod item_names;
mod iters;
mod limits;
mod lists;
mod metas;
mod texts;

pub use iters::MetaIter;
pub use limits::{LONGEST_META_NAME, LONGEST_VALUE};
pub use lists::List;
pub use metas::Meta;
use std::alloc::AllocError;
pub use texts::Text;

/// Want of memory.
pub type Memory = AllocError;
