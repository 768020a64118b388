//! A map over chunks of 1 to 64 entries: the chunks stand in the order of their keys, and a binary search finds a key's
//! chunk. Contracts see the entries in their order, as those of `SortedMap` do, and no chunks.
#![tactic(auto)]

mod chunked_maps;
mod chunks;
mod copies;
mod counted;
mod iters;
mod ranges;
mod renaming;
mod shared;

pub use chunked_maps::ChunkedMap;
pub use copies::Copied;
pub use iters::ChunkedIter;
pub use renaming::Renames;
