//! Sets of keys in which one key is edited: it gets another value, or one more metadata text.
#![tactic(auto)]

mod entries;
mod sets;

pub use sets::{put_meta, put_value};
