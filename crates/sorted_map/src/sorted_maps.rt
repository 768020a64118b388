//! A map over one sorted vector.
ghost use Rattle.std.specs.Prelude.{◌≡◌, remove, ◌+◌, ◌<◌, ◌≤◌, ◌++◌, [], T, List, length, not, None, IfSome, IfOk, IfErr, OnOk, OnErr, slice_get, slice_range, slice_index_or, slice_set};
ghost use Rattle.std.specs.FinMap.{find, is_sorted};
ghost use Rattle.std.specs.FinMap.Entries.{put, where_key};
ghost use Rattle.std.specs.Option.{option_copied, option_map, option_to_list};
ghost use Rattle.std.specs.Ordering.{eq_by_cmp};
ghost use Rattle.std.specs.List.{remove_range};
ghost use Rattle.std.specs.Vec.{vec_capacity};
ghost use Rattle.sorted_map.specs.Place.{IsPlace, IsGap};
ghost use Rattle.sorted_map.specs.Merge.{put_all, firsts_cmp};

use std::alloc::{AllocError, Global};
use std::cmp::Ordering;
use std::collections::VecDeque;
use std::marker::Model;
use std::mem;

/// A value for each of some keys, in the order of the keys.
#[derive(Drop)]
pub struct SortedMap<K: Ord, V> {
    sorted: Vec<(K, V)>,
}

impl<K: Ord, V> Model for SortedMap<K, V> {
    ghost use Rattle.std.specs.Prelude.{List, T};
    ghost use Rattle.std.specs.FinMap.{is_sorted};

    ghost Value = { List (K × V) };

    ghost view = { λ m. m.sorted.items };

    ghost invariant = { λ m. T (is_sorted K.cmp m.sorted.items) };
}

impl<K: Ord, V> SortedMap<K, V> {
    pub fn new(alloc: Global) -> SortedMap<K, V>
        ensures { result ≡ [] }
    {
        SortedMap {
            sorted: Vec::new(alloc),
        }
    }

    /// The map of some entries that stand in the order of their keys, each key once.
    pub fn from_sorted(entries: Vec<(K, V)>) -> SortedMap<K, V>
        requires { T (is_sorted K.cmp entries.items) }
        ensures { result ≡ entries.items }
    {
        SortedMap { sorted: entries }
    }

    pub fn allocator(&self) -> Global {
        *self.sorted.allocator()
    }

    /// The entries, in the order of their keys.
    pub fn entries(&self) -> &[(K, V)]
        ensures all { result.now ≡ self.now }
        ensures sorted { T (is_sorted K.cmp self.now) }
    {
        &self.sorted
    }

    /// How many entries there are.
    pub fn len(&self) -> usize
        ensures len { result ≡ length self.now }
        ensures sorted { T (is_sorted K.cmp self.now) }
    {
        self.sorted.len()
    }

    /// The key and the value at a place in the order of the keys.
    pub fn at(&self, i: usize) -> Option<(&K, &V)>
        ensures at { option_map (λ entry. (entry.0.now, entry.1.now)) result ≡ slice_get self.now i }
        ensures sorted { T (is_sorted K.cmp self.now) }
    {
        match self.sorted.get(i) {
            Some(entry) => Some((&entry.0, &entry.1)),
            None => None,
        }
    }

    /// The value of a key.
    pub fn get(&self, key: &K) -> Option<&V>
        ensures found { option_copied result ≡ find K.cmp key.now self.now }
        ensures sorted { T (is_sorted K.cmp self.now) }
    {
        match place(&self.sorted, key) {
            Ok(at) => Some(&self.sorted[at].1),
            Err(_) => None,
        }
    }
}

impl<K: Ord + Drop, V: Drop> SortedMap<K, V> {
    /// Gives a key a value, and answers the value that it had. A key that is there stays, and the one passed in is
    /// dropped.
    pub fn insert(&mut self, key: K, value: V) -> Result<Option<V>, AllocError>
        ensures former { IfOk result (λ former. former ≡ find K.cmp key self.old) }
        ensures ok { OnOk result (self.new ≡ put K.cmp key value self.old) }
        ensures err { OnErr result (self.new ≡ self.old) }
        ensures sorted { T (is_sorted K.cmp self.old) }
    {
        match place(&self.sorted, &key) {
            Ok(at) => Ok(Some(mem::replace(&mut self.sorted[at].1, value))),
            Err(at) => {
                self.sorted.insert(at, (key, value))?;
                Ok(None)
            }
        }
    }

    /// Gives each key of another map the value that it has there. A key that is there stays, and the other map's is
    /// dropped.
    pub fn insert_all(&mut self, other: SortedMap<K, V>) -> Result<(), AllocError>
        ensures ok { OnOk result (self.new ≡ put_all K.cmp other self.old) }
        ensures err { OnErr result (self.new ≡ self.old) }
        ensures sorted { T (is_sorted K.cmp self.old) }
        ensures other_sorted { T (is_sorted K.cmp other) }
    {
        let room = room_for_both(&self.sorted, &other.sorted)?;
        let none = Vec::new(self.allocator());
        let ours = mem::replace(&mut self.sorted, none);
        self.sorted = merge(ours, other.sorted, room);
        Ok(())
    }

    /// Takes a key out, and answers the value that it had.
    pub fn remove(&mut self, key: &K) -> Option<V>
        ensures former { result ≡ find K.cmp key.now self.old }
        ensures removed { self.new ≡ where_key K.cmp (λ k. not (eq_by_cmp K.cmp key.now k)) self.old }
        ensures sorted { T (is_sorted K.cmp self.old) }
    {
        match place(&self.sorted, key) {
            Ok(at) => Some(self.remove_at(at).1),
            Err(_) => None,
        }
    }

    /// Takes out the entry at a place.
    pub fn remove_at(&mut self, at: usize) -> (K, V)
        requires { at < length self.old }
        ensures entry { result ≡ slice_index_or self.old at result }
        ensures removed { self.new ≡ remove self.old at }
        ensures sorted { T (is_sorted K.cmp self.old) }
    {
        self.sorted.remove(at)
    }

    /// Takes out the entries from one place up to another.
    pub fn take_range(&mut self, from: usize, to: usize) -> Result<SortedMap<K, V>, AllocError>
        requires order { from ≤ to }
        requires bounds { to ≤ length self.old }
        ensures taken { IfOk result (λ taken. taken ≡ slice_range self.old from to) }
        ensures ok { OnOk result (self.new ≡ remove_range self.old from to) }
        ensures err { OnErr result (self.new ≡ self.old) }
        ensures sorted { T (is_sorted K.cmp self.old) }
    {
        let sorted = move_out(&mut self.sorted, from, to)?;
        Ok(SortedMap { sorted })
    }

    /// Gives the key at a place another value, and answers the one that it had.
    pub fn replace_at(&mut self, at: usize, value: V) -> V
        requires { at < length self.old }
        ensures former { (d : _) → result ≡ (slice_index_or self.old at d).1 }
        ensures replaced { (d : _) → self.new ≡ slice_set self.old at ((slice_index_or self.old at d).0, value) }
        ensures sorted { T (is_sorted K.cmp self.old) }
    {
        mem::replace(&mut self.sorted[at].1, value)
    }
}

/// Where a key stands, or would stand. The last key is looked at first, since keys mostly come in their order.
fn place<K: Ord, V>(entries: &[(K, V)], key: &K) -> Result<usize, usize>
    requires { T (is_sorted K.cmp entries.now) }
    ensures there { IfOk result (λ at. IsPlace K.cmp entries.now key.now at) }
    ensures missing { IfErr result (λ at. IsGap K.cmp entries.now key.now at) }
{
    if is_behind(entries, key) {
        return Err(entries.len());
    }
    entries.binary_search_by(
        |entry: &(K, V)| -> Ordering
            ensures { result ≡ K.cmp entry.now.0 key.entry.now }
        { entry.0.cmp(key) },
    )
}

/// A key is behind all entries.
fn is_behind<K: Ord, V>(entries: &[(K, V)], key: &K) -> bool
    requires { T (is_sorted K.cmp entries.now) }
    ensures { T result → IsGap K.cmp entries.now key.now (length entries.now) }
{
    match entries.last() {
        Some(last) => last.0.cmp(key).is_lt(),
        None => true,
    }
}

/// Moves the elements from one place up to another into a vector of their own. Its memory is taken first.
fn move_out<T: Drop>(items: &mut Vec<T>, from: usize, to: usize) -> Result<Vec<T>, AllocError>
    requires order { from ≤ to }
    requires bounds { to ≤ length items.old.items }
    ensures taken { IfOk result (λ taken. taken.items ≡ slice_range items.old.items from to) }
    ensures ok { OnOk result (items.new.items ≡ remove_range items.old.items from to) }
    ensures err { OnErr result (items.new.items ≡ items.old.items) }
{
    let mut taken = Vec::with_capacity(*items.allocator(), to - from)?;
    for item in items.drain(from..to) {
        taken.push_reserved(item);
    }
    Ok(taken)
}

/// An empty vector with room for the elements of two others.
fn room_for_both<T>(left: &Vec<T>, right: &Vec<T>) -> Result<Vec<T>, AllocError>
    ensures none { IfOk result (λ room. room.items ≡ []) }
    ensures room { IfOk result (λ room. length left.now.items + length right.now.items ≤ vec_capacity room) }
{
    match left.len().checked_add(right.len()) {
        Some(len) => Vec::with_capacity(*left.allocator(), len),
        None => Err(AllocError),
    }
}

/// Moves the entries of two lists into one, where each key stands once. Of a key that both have, the second has the
/// value.
fn merge<K: Ord + Drop, V: Drop>(
    ours: Vec<(K, V)>,
    theirs: Vec<(K, V)>,
    room: Vec<(K, V)>,
) -> Vec<(K, V)>
    requires sorted { T (is_sorted K.cmp theirs.items) }
    requires none { room.items ≡ [] }
    requires room { length ours.items + length theirs.items ≤ vec_capacity room }
    ensures { result.items ≡ put_all K.cmp theirs.items ours.items }
{
    let mut merged = room;
    let mut ours = VecDeque::from(ours);
    let mut theirs = VecDeque::from(theirs);
    while let Some(entry) = next_merged(&mut ours, &mut theirs) {
        merged.push_reserved(entry);
    }
    merged
}

/// Takes the entry with the smallest key from two lists. Of a key that both have, the second has the value.
fn next_merged<K: Ord + Drop, V: Drop>(
    ours: &mut VecDeque<(K, V)>,
    theirs: &mut VecDeque<(K, V)>,
) -> Option<(K, V)>
    requires { T (is_sorted K.cmp theirs.old.items) }
    ensures entries { put_all K.cmp theirs.old.items ours.old.items
        ≡ option_to_list result ++ put_all K.cmp theirs.new.items ours.new.items }
    ensures sorted { T (is_sorted K.cmp theirs.new.items) }
    ensures fewer { IfSome result (λ _. length ours.new.items + length theirs.new.items < length ours.old.items + length theirs.old.items) }
    ensures all { result ≡ None → (ours.new.items ≡ []) × (theirs.new.items ≡ []) }
{
    match order_of_firsts(ours, theirs) {
        Ordering::Less => ours.pop_front(),
        Ordering::Equal => {
            let (key, _) = ours.pop_front()?;
            let (_, value) = theirs.pop_front()?;
            Some((key, value))
        }
        Ordering::Greater => theirs.pop_front(),
    }
}

/// Which of two lists has the smaller first key. An empty list is behind the other.
fn order_of_firsts<K: Ord, V>(ours: &VecDeque<(K, V)>, theirs: &VecDeque<(K, V)>) -> Ordering
    ensures { result ≡ firsts_cmp K.cmp ours.now.items theirs.now.items }
{
    match (ours.front(), theirs.front()) {
        (Some(our), Some(their)) => our.0.cmp(&their.0),
        (Some(_), None) => Ordering::Less,
        (None, _) => Ordering::Greater,
    }
}
