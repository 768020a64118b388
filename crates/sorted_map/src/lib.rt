//! A map over one sorted vector: its entries stand in the order of their keys, and a binary search finds them.
//! Contracts see the entries in their order. `find` and `put` are those of the finite maps of std.
#![tactic(auto)]

mod sorted_maps;

pub use sorted_maps::SortedMap;
