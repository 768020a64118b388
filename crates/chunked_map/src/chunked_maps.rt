//! A map over chunks of entries.
ghost use Rattle.std.specs.Prelude.{◌≡◌, ◌+◌, ◌-◌, ◌*◌, ◌<◌, ◌≤◌, ◌^◌, [], T, length, take, drop, not, IfOk, OnOk, OnErr, slice_get, slice_range};
ghost use Rattle.std.specs.FinMap.{find, is_sorted};
ghost use Rattle.std.specs.FinMap.Entries.{put, where_key};
ghost use Rattle.std.specs.Option.{option_copied, option_map};
ghost use Rattle.std.specs.List.{remove_range};
ghost use Rattle.std.specs.Ordering.{eq_by_cmp};
ghost use Rattle.chunked_map.specs.Chunks.{joined, all_before, none_before};

use crate::Copied;
use crate::chunks::{before_in, chunk_of, count_in, put_at, remove_in, value_in};
use crate::counted::{search, search_counted};
use crate::iters::ChunkedIter;
use crate::ranges::{chunks_from, entries_from, place_in, take_chunks};
use crate::shared::Chunk;
use std::alloc::{AllocError, Global};
use std::marker::Model;
use std::sync::ledger::Ledger;
use step_count::Steps;

/// A value for each of some keys, in the order of the keys.
#[derive(Drop)]
pub struct ChunkedMap<K: Ord, V> {
    pub(crate) chunks: Vec<Chunk<K, V>>,
}

impl<K: Ord, V> Model for ChunkedMap<K, V> {
    ghost use Rattle.std.specs.Prelude.{List};
    ghost use Rattle.chunked_map.specs.Chunks.{joined, AreChunks};

    ghost Value = { List (K × V) };

    ghost view = { λ m. joined m.chunks.items };

    ghost invariant = { λ m. AreChunks K.cmp m.chunks.items };
}

impl<K: Ord, V> ChunkedMap<K, V> {
    pub fn new(alloc: Global) -> ChunkedMap<K, V>
        ensures { result ≡ [] }
    {
        ChunkedMap {
            chunks: Vec::new(alloc),
        }
    }

    pub fn allocator(&self) -> Global
        ensures sorted { T (is_sorted K.cmp self.now) }
    {
        *self.chunks.allocator()
    }

    /// How many entries there are.
    pub fn len(&self) -> usize
        ensures len { result ≡ length self.now }
        ensures sorted { T (is_sorted K.cmp self.now) }
    {
        count_in(&self.chunks)
    }

    /// How many chunks the entries stand in. Each has 1 to 64 of them.
    pub fn chunk_count(&self) -> usize
        ensures some { result ≤ length self.now }
        ensures few { length self.now ≤ 64 * result }
    {
        self.chunks.as_slice().len()
    }

    /// The key and the value at a place in the order of the keys.
    pub fn at(&self, i: usize) -> Option<(&K, &V)>
        ensures at { option_map (λ entry. (entry.0.now, entry.1.now)) result ≡ slice_get self.now i }
        ensures sorted { T (is_sorted K.cmp self.now) }
    {
        if i >= self.len() {
            return None;
        }
        let (chunk, place) = place_in(&self.chunks, i);
        if chunk < self.chunks.len() {
            self.chunks[chunk].at(place)
        } else {
            None
        }
    }

    /// The value of a key.
    pub fn get(&self, key: &K) -> Option<&V>
        ensures found { option_copied result ≡ find K.cmp key.now self.now }
        ensures sorted { T (is_sorted K.cmp self.now) }
    {
        let (at, place) = search(&self.chunks, key);
        match place {
            Ok(place) => Some(value_in(&self.chunks, at, place)),
            Err(_) => None,
        }
    }

    /// The value of a key, as `get` finds it. For n keys it takes s comparisons with 2^s ≤ 128 (2n + 1).
    pub fn get_counted<L: Ledger>(&self, key: &K, steps: &mut Steps<L>) -> Option<&V>
        ensures found { option_copied result ≡ find K.cmp key.now self.now }
        ensures sorted { T (is_sorted K.cmp self.now) }
        ensures more { steps.old ≤ steps.new }
        ensures cost { 2 ^ (steps.new - steps.old) ≤ 128 * (2 * length self.now + 1) }
    {
        let (at, place) = search_counted(&self.chunks, key, steps);
        match place {
            Ok(place) => Some(value_in(&self.chunks, at, place)),
            Err(_) => None,
        }
    }

    /// The entries, in the order of their keys.
    pub fn iter(&self) -> ChunkedIter<'_, K, V>
        ensures all { result ≡ self.now }
        ensures sorted { T (is_sorted K.cmp self.now) }
    {
        ChunkedIter {
            rest: &[],
            chunks: &self.chunks,
        }
    }

    /// The entries from a place on, in the order of their keys.
    pub fn iter_from(&self, place: usize) -> ChunkedIter<'_, K, V>
        requires { place ≤ length self.now }
        ensures from { result ≡ drop place self.now }
        ensures sorted { T (is_sorted K.cmp self.now) }
    {
        let (at, left) = place_in(&self.chunks, place);
        if at < self.chunks.len() {
            ChunkedIter {
                rest: entries_from(&self.chunks[at], left),
                chunks: chunks_from(&self.chunks, at + 1),
            }
        } else {
            ChunkedIter {
                rest: &[],
                chunks: &[],
            }
        }
    }

    /// How many entries have a key before another one.
    pub fn count_before(&self, key: &K) -> usize
        ensures bounds { result ≤ length self.now }
        ensures countable { length self.now < 2 ^ 64 }
        ensures before { T (all_before K.cmp key.now (take result self.now)) }
        ensures behind { T (none_before K.cmp key.now (drop result self.now)) }
        ensures sorted { T (is_sorted K.cmp self.now) }
    {
        let at = chunk_of(&self.chunks, key);
        before_in(&self.chunks, at, key)
    }
}

impl<K: Ord + Drop, V: Copied<K> + Drop> ChunkedMap<K, V> {
    /// Gives a key a value, and answers the value that it had. A key that is there stays, and the one passed in is
    /// dropped.
    pub fn insert(&mut self, key: K, value: V) -> Result<Option<V>, AllocError>
        ensures former { IfOk result (λ former. former ≡ find K.cmp key self.old) }
        ensures ok { OnOk result (self.new ≡ put K.cmp key value self.old) }
        ensures err { OnErr result (self.new ≡ self.old) }
        ensures sorted { T (is_sorted K.cmp self.old) }
    {
        let (at, place) = search(&self.chunks, &key);
        put_at(&mut self.chunks, at, place, key, value)
    }

    /// Gives a key a value, as `insert` does. For n keys before it takes s comparisons with 2^s ≤ 128 (2n + 1).
    pub fn insert_counted<L: Ledger>(
        &mut self,
        key: K,
        value: V,
        steps: &mut Steps<L>,
    ) -> Result<Option<V>, AllocError>
        ensures former { IfOk result (λ former. former ≡ find K.cmp key self.old) }
        ensures ok { OnOk result (self.new ≡ put K.cmp key value self.old) }
        ensures err { OnErr result (self.new ≡ self.old) }
        ensures sorted { T (is_sorted K.cmp self.old) }
        ensures more { steps.old ≤ steps.new }
        ensures cost { 2 ^ (steps.new - steps.old) ≤ 128 * (2 * length self.old + 1) }
    {
        let (at, place) = search_counted(&self.chunks, &key, steps);
        put_at(&mut self.chunks, at, place, key, value)
    }

    /// Takes a key out, and answers the value that it had.
    pub fn remove(&mut self, key: &K) -> Result<Option<V>, AllocError>
        ensures former { IfOk result (λ former. former ≡ find K.cmp key.now self.old) }
        ensures ok { OnOk result (self.new ≡ where_key K.cmp (λ k. not (eq_by_cmp K.cmp key.now k)) self.old) }
        ensures err { OnErr result (self.new ≡ self.old) }
        ensures sorted { T (is_sorted K.cmp self.old) }
    {
        let (at, place) = search(&self.chunks, key);
        match place {
            Ok(place) => Ok(Some(remove_in(&mut self.chunks, at, place, key)?)),
            Err(_) => Ok(None),
        }
    }

    /// Takes out the entries from one place up to another.
    pub fn take_range(&mut self, from: usize, to: usize) -> Result<ChunkedMap<K, V>, AllocError>
        requires order { from ≤ to }
        requires bounds { to ≤ length self.old }
        ensures taken { IfOk result (λ taken. taken ≡ slice_range self.old from to) }
        ensures ok { OnOk result (self.new ≡ remove_range self.old from to) }
        ensures err { OnErr result (self.new ≡ self.old) }
        ensures sorted { T (is_sorted K.cmp self.old) }
    {
        let chunks = take_chunks(&mut self.chunks, from, to)?;
        Ok(ChunkedMap { chunks })
    }
}
