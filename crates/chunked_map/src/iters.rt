//! The entries of a map in chunks, one after another.
ghost use Rattle.std.specs.Iterator.{YieldsFirstBy, item_count};

use crate::shared::Chunk;
use std::marker::Model;

/// The entries that are still to come, in the order of their keys: those of a chunk, and the chunks behind it.
#[derive(Drop)]
pub struct ChunkedIter<'a, K: Ord, V> {
    pub(crate) rest: &'a [(K, V)],
    pub(crate) chunks: &'a [Chunk<K, V>],
}

impl<'a, K: Ord, V> Model for ChunkedIter<'a, K, V> {
    ghost use Rattle.std.specs.Prelude.{List, ◌++◌};
    ghost use Rattle.std.specs.List.{AllByRecursion};
    ghost use Rattle.chunked_map.specs.Chunks.{joined, IsSized};

    ghost Value = { List (K × V) };

    ghost view = { λ s. s.rest.now ++ joined s.chunks.now };

    ghost invariant = { λ s. AllByRecursion IsSized s.chunks.now };
}

impl<'a, K: Ord, V> Iterator for ChunkedIter<'a, K, V> {
    type Item = (&'a K, &'a V);

    ghost next_gives = { YieldsFirstBy (λ entry. (entry.0.now, entry.1.now)) (λ s. s) };

    ghost remaining = { item_count (λ s. s) };

    fn next(&mut self) -> Option<(&'a K, &'a V)> {
        if let Some((first, others)) = self.rest.split_first() {
            self.rest = others;
            return Some((&first.0, &first.1));
        }
        let (chunk, behind) = self.chunks.split_first()?;
        let (first, others) = chunk.entries().split_first()?;
        self.rest = others;
        self.chunks = behind;
        Some((&first.0, &first.1))
    }
}
