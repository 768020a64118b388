//! Keys with their entries, as a finite map in name order.
#![tactic(auto)]

mod counting;
mod entries;
mod iters;
mod key_sets;
mod ranges;
mod same;
mod ways;
mod weights;
mod wholes;

pub use counting::ten_thousand_keys_take_21_steps;
pub use entries::Entry;
pub use iters::KeySetIter;
pub use key_sets::{KeySet, equal_sets_are_the_same_map, the_keys_set_last_are_found};
pub use weights::{HEAVIEST_MAP, KEY_WEIGHT, weight_of_key};
