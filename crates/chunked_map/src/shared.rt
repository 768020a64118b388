//! A chunk of entries, which maps share until one of them changes it.
ghost use Rattle.std.specs.Prelude.{◌≡◌, ◌<◌, ◌≤◌, T, Some, length, not, IfOk, OnOk, OnErr, slice_get, slice_range};
ghost use Rattle.std.specs.FinMap.{find, is_sorted};
ghost use Rattle.std.specs.FinMap.Entries.{put, where_key};
ghost use Rattle.std.specs.Option.{option_map};
ghost use Rattle.std.specs.List.{remove_range};
ghost use Rattle.std.specs.Ordering.{eq_by_cmp};
ghost use Rattle.sorted_map.specs.Place.{IsPlace, IsGap};

use crate::Copied;
use crate::ranges::move_out;
use std::alloc::{AllocError, Global};
use std::marker::Model;
use std::mem;
use std::sync::Arc;

/// Entries that stand in the order of their keys, each key once. What changes them is told the place.
#[derive(Drop)]
pub(crate) struct Entries<K: Ord, V> {
    sorted: Vec<(K, V)>,
}

impl<K: Ord, V> Model for Entries<K, V> {
    ghost use Rattle.std.specs.Prelude.{List, T};
    ghost use Rattle.std.specs.FinMap.{is_sorted};

    ghost Value = { List (K × V) };

    ghost view = { λ entries. entries.sorted.items };

    ghost invariant = { λ entries. T (is_sorted K.cmp entries.sorted.items) };
}

impl<K: Ord + Drop, V: Copied<K> + Drop> Clone for Entries<K, V> {
    ghost is_clone = { λ entries copied. copied ≡ entries };

    fn clone(&self) -> Result<Entries<K, V>, AllocError> {
        let sorted = copy_of(*self.sorted.allocator(), &self.sorted)?;
        Ok(Entries { sorted })
    }
}

impl<K: Ord, V> Entries<K, V> {
    fn allocator(&self) -> Global {
        *self.sorted.allocator()
    }

    /// The entries one after another.
    fn list(&self) -> &[(K, V)]
        ensures all { result.now ≡ self.now }
        ensures sorted { T (is_sorted K.cmp self.now) }
    {
        &self.sorted
    }

    /// The entries by themselves.
    pub fn into_list(self) -> Vec<(K, V)>
        ensures all { result.items ≡ self }
        ensures sorted { T (is_sorted K.cmp self) }
    {
        self.sorted
    }
}

impl<K: Ord + Drop, V: Drop> Entries<K, V> {
    /// Puts a key that no entry has into its gap.
    fn insert_at(&mut self, at: usize, key: K, value: V) -> Result<(), AllocError>
        requires { IsGap K.cmp self.old key at }
        ensures ok { OnOk result (self.new ≡ put K.cmp key value self.old) }
        ensures err { OnErr result (self.new ≡ self.old) }
    {
        self.sorted.insert(at, (key, value))?;
        Ok(())
    }

    /// Gives the key at a place another value, and answers the one that it had.
    fn replace_at(&mut self, at: usize, value: V) -> V
        requires { at < length self.old }
        ensures former { (key : K) → IsPlace K.cmp self.old key at → Some result ≡ find K.cmp key self.old }
        ensures replaced { (key : K) → IsPlace K.cmp self.old key at → self.new ≡ put K.cmp key value self.old }
    {
        mem::replace(&mut self.sorted[at].1, value)
    }

    /// Takes out the entry at a place.
    fn remove_at(&mut self, at: usize) -> V
        requires { at < length self.old }
        ensures former { (key : K) → IsPlace K.cmp self.old key at → Some result ≡ find K.cmp key self.old }
        ensures removed { (key : K) → IsPlace K.cmp self.old key at → self.new ≡ where_key K.cmp (λ k. not (eq_by_cmp K.cmp key k)) self.old }
    {
        let (_, value) = self.sorted.remove(at);
        value
    }

    /// Takes out the entries from one place up to another.
    fn take_range(&mut self, from: usize, to: usize) -> Result<Entries<K, V>, AllocError>
        requires order { from ≤ to }
        requires bounds { to ≤ length self.old }
        ensures taken { IfOk result (λ taken. taken ≡ slice_range self.old from to) }
        ensures ok { OnOk result (self.new ≡ remove_range self.old from to) }
        ensures err { OnErr result (self.new ≡ self.old) }
    {
        let sorted = move_out(&mut self.sorted, from, to)?;
        Ok(Entries { sorted })
    }
}

/// Some entries, which stand in the order of their keys.
#[derive(Drop)]
pub struct Chunk<K: Ord, V> {
    shared: Arc<Entries<K, V>>,
}

impl<K: Ord, V> Model for Chunk<K, V> {
    ghost use Rattle.std.specs.Prelude.{List};
    ghost use Rattle.std.specs.Arc.{arc_value};

    ghost Value = { List (K × V) };

    ghost view = { λ chunk. arc_value chunk.shared };
}

impl<K: Ord, V> Chunk<K, V> {
    pub fn allocator(&self) -> Global {
        self.shared.allocator()
    }

    /// The entries, in the order of their keys.
    pub fn entries(&self) -> &[(K, V)]
        ensures all { result.now ≡ self.now }
        ensures sorted { T (is_sorted K.cmp self.now) }
    {
        self.shared.list()
    }

    /// How many entries there are.
    pub fn len(&self) -> usize
        ensures len { result ≡ length self.now }
        ensures sorted { T (is_sorted K.cmp self.now) }
    {
        self.shared.list().len()
    }

    /// The key and the value at a place in the order of the keys.
    pub fn at(&self, i: usize) -> Option<(&K, &V)>
        ensures at { option_map (λ entry. (entry.0.now, entry.1.now)) result ≡ slice_get self.now i }
        ensures sorted { T (is_sorted K.cmp self.now) }
    {
        match self.shared.list().get(i) {
            Some(entry) => Some((&entry.0, &entry.1)),
            None => None,
        }
    }

    /// The same chunk once more. No entry is copied.
    pub fn share(&self) -> Result<Chunk<K, V>, AllocError>
        ensures { IfOk result (λ chunk. chunk ≡ self.now) }
    {
        Ok(Chunk {
            shared: Arc::try_clone(&self.shared)?,
        })
    }
}

impl<K: Ord + Drop, V: Drop> Chunk<K, V> {
    /// A chunk of some entries.
    pub fn of(alloc: Global, sorted: Vec<(K, V)>) -> Result<Chunk<K, V>, AllocError>
        requires { T (is_sorted K.cmp sorted.items) }
        ensures { IfOk result (λ chunk. chunk ≡ sorted.items) }
    {
        let shared = Arc::new(alloc, Entries { sorted })?;
        Ok(Chunk { shared })
    }
}

impl<K: Ord + Drop, V: Copied<K> + Drop> Chunk<K, V> {
    /// Puts a key that no entry has into its gap.
    pub fn insert_at(&mut self, at: usize, key: K, value: V) -> Result<(), AllocError>
        requires { IsGap K.cmp self.old key at }
        ensures ok { OnOk result (self.new ≡ put K.cmp key value self.old) }
        ensures err { OnErr result (self.new ≡ self.old) }
    {
        Arc::make_mut(&mut self.shared)?.insert_at(at, key, value)
    }

    /// Gives the key at a place another value, and answers the one that it had.
    pub fn replace_at(&mut self, at: usize, value: V) -> Result<V, AllocError>
        requires { at < length self.old }
        ensures former { IfOk result (λ former. (key : K) → IsPlace K.cmp self.old key at → Some former ≡ find K.cmp key self.old) }
        ensures ok { OnOk result ((key : K) → IsPlace K.cmp self.old key at → self.new ≡ put K.cmp key value self.old) }
        ensures err { OnErr result (self.new ≡ self.old) }
    {
        Ok(Arc::make_mut(&mut self.shared)?.replace_at(at, value))
    }

    /// Takes out the entry at a place, and answers its value.
    pub fn remove_at(&mut self, at: usize) -> Result<V, AllocError>
        requires { at < length self.old }
        ensures former { IfOk result (λ former. (key : K) → IsPlace K.cmp self.old key at → Some former ≡ find K.cmp key self.old) }
        ensures ok { OnOk result ((key : K) → IsPlace K.cmp self.old key at → self.new ≡ where_key K.cmp (λ k. not (eq_by_cmp K.cmp key k)) self.old) }
        ensures err { OnErr result (self.new ≡ self.old) }
    {
        Ok(Arc::make_mut(&mut self.shared)?.remove_at(at))
    }

    /// The entries by themselves. They are moved where no other map has the chunk, and else copied.
    pub fn into_entries(self) -> Result<Entries<K, V>, AllocError>
        ensures { IfOk result (λ entries. entries ≡ self) }
    {
        match Arc::try_unwrap(self.shared) {
            Ok(entries) => Ok(entries),
            Err(shared) => {
                let sorted = copy_of(shared.allocator(), shared.list())?;
                Ok(Entries { sorted })
            }
        }
    }

    /// Takes out the entries from one place up to another. All memory is taken before one of them moves.
    pub fn take_range(&mut self, from: usize, to: usize) -> Result<Chunk<K, V>, AllocError>
        requires order { from ≤ to }
        requires bounds { to ≤ length self.old }
        ensures taken { IfOk result (λ taken. taken ≡ slice_range self.old from to) }
        ensures ok { OnOk result (self.new ≡ remove_range self.old from to) }
        ensures err { OnErr result (self.new ≡ self.old) }
    {
        let alloc = self.allocator();
        let mut taken = Chunk::of(alloc, Vec::new(alloc))?;
        let Some(room) = Arc::get_mut(&mut taken.shared) else {
            return Err(AllocError);
        };
        *room = self.take_out(from, to)?;
        Ok(taken)
    }

    /// Takes out the entries from one place up to another, in no chunk yet.
    fn take_out(&mut self, from: usize, to: usize) -> Result<Entries<K, V>, AllocError>
        requires order { from ≤ to }
        requires bounds { to ≤ length self.old }
        ensures taken { IfOk result (λ taken. taken ≡ slice_range self.old from to) }
        ensures ok { OnOk result (self.new ≡ remove_range self.old from to) }
        ensures err { OnErr result (self.new ≡ self.old) }
    {
        Arc::make_mut(&mut self.shared)?.take_range(from, to)
    }
}

/// The same entries again.
fn copy_of<K: Drop, V: Copied<K> + Drop>(
    alloc: Global,
    entries: &[(K, V)],
) -> Result<Vec<(K, V)>, AllocError>
    ensures { IfOk result (λ copied. copied.items ≡ entries.now) }
{
    let mut copied = Vec::with_capacity(alloc, entries.len())?;
    for entry in entries {
        copied.push(V::copied(&entry.0, &entry.1)?)?;
    }
    Ok(copied)
}
