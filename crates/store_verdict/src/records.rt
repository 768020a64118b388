//! What a handle keeps of each mount.
ghost use Rattle.std.specs.Prelude.{◌≡◌, ℕ, ◌<◌, false, All, IfOk, List, None, length, map as over};
ghost use Rattle.std.specs.Option.{option_copied, option_map};
ghost use Rattle.model_maps.specs.KeyMap.{KeyMap};
ghost use Rattle.model_store.specs.Cores.{keeping, storing};
ghost use Rattle.model_store.specs.Store.{Store, counts_in};
ghost use Rattle.model_store.specs.Sets.{front_in};
ghost use Rattle.set_split.specs.Seen.{numbered};
ghost use Rattle.store_verdict.specs.Kept.{front_from, kept_parts, with_part};
ghost use Rattle.store_verdict.specs.ProcKeys.{AreProc};
ghost use Rattle.store_verdict.specs.RecordView.{fetched_at, fetched_of, handle_of, places_of, proc_of, record_of};

use crate::counting::counts_by_key;
use key_meta::{List, Memory};
use key_set::KeySet;
use mount_table::MountTable;
use set_split::Part;
use std::alloc::Global;

/// The keys of a mount as they were after the first commits of the history, and how many commits these are.
#[derive(Drop)]
pub struct Fetched {
    pub front: u64,
    pub kept: KeySet,
}

/// What a handle keeps: of each mount by its number what it fetched last, how many commits it made, and its own keys in
/// `proc`.
#[derive(Drop)]
pub struct Record {
    handle: u32,
    fetched: Vec<Option<Fetched>>,
    committed: u64,
    proc: KeySet,
}

impl Record {
    /// The record of a handle that has fetched nothing, with a place for each mount.
    pub fn new(alloc: Global, handle: u32, mounts: usize, proc: KeySet) -> Result<Record, Memory>
        requires { AreProc proc }
        ensures handle { IfOk result (λ rec. handle_of rec ≡ handle) }
        ensures places { IfOk result (λ rec. places_of rec ≡ mounts) }
        ensures proc { IfOk result (λ rec. proc_of rec ≡ proc) }
        ensures none { IfOk result (λ rec. (m : ℕ) → (record_of rec).fetched m ≡ None) }
        ensures fresh { IfOk result (λ rec. (record_of rec).committed ≡ 0) }
    {
        let fetched = no_places(alloc, mounts)?;
        Ok(Record {
            handle,
            fetched,
            committed: 0,
            proc,
        })
    }

    /// The same record again. The two share the kept keys until one of them changes.
    pub fn copy(&self) -> Result<Record, Memory>
        ensures handle { IfOk result (λ copied. handle_of copied ≡ handle_of self.now) }
        ensures places { IfOk result (λ copied. places_of copied ≡ places_of self.now) }
        ensures proc { IfOk result (λ copied. proc_of copied ≡ proc_of self.now) }
        ensures kept { IfOk result (λ copied. record_of copied ≡ record_of self.now) }
    {
        let fetched = copy_all(*self.fetched.allocator(), &self.fetched)?;
        let proc = self.proc.copy()?;
        Ok(Record {
            handle: self.handle,
            fetched,
            committed: self.committed,
            proc,
        })
    }

    /// The number of the handle.
    pub fn handle(&self) -> u32
        ensures { result ≡ handle_of self.now }
    {
        self.handle
    }

    /// How many commits the handle made.
    pub fn committed(&self) -> u64
        ensures { result ≡ (record_of self.now).committed }
    {
        self.committed
    }

    /// The handle's own keys in `proc`.
    pub fn proc(&self) -> &KeySet
        ensures { result.now ≡ proc_of self.now }
    {
        &self.proc
    }

    /// How many commits there were when a mount was fetched last.
    pub fn fetched(&self, mount: usize) -> Option<u64>
        ensures { result ≡ front_in (record_of self.now) mount }
    {
        match self.fetched.get(mount) {
            Some(Some(fetched)) => Some(fetched.front),
            _ => None,
        }
    }

    /// The keys that a mount had then.
    pub fn kept(&self, mount: usize) -> Option<&KeySet>
        ensures { option_copied result ≡ option_map (λ fetched. fetched.kept) ((record_of self.now).fetched mount) }
    {
        match self.fetched.get(mount) {
            Some(Some(fetched)) => Some(&fetched.kept),
            _ => None,
        }
    }

    /// Keeps some keys of some mounts from a front on: the copies of a get. It takes no memory.
    pub fn keep(&mut self, front: u64, parts: List<Part>)
        requires { All (λ part. part.mount < places_of self.old) parts }
        ensures kept { (mounts : List ℕ) (keys : ℕ → KeyMap) → numbered parts ≡ over (λ m. (m, keys m)) mounts
            → record_of self.new ≡ keeping mounts front keys (record_of self.old) }
        ensures handle { handle_of self.new ≡ handle_of self.old }
        ensures places { places_of self.new ≡ places_of self.old }
        ensures proc { proc_of self.new ≡ proc_of self.old }
    {
        keep_all(&mut self.fetched, front, parts.into_vec());
    }

    /// Keeps what a commit of the handle's own wanted for each touched mount: from the commit's number on, or of a
    /// mount that counts by key from the front on that the record has. It takes no memory.
    pub fn store(&mut self, table: &MountTable, number: u64, parts: List<Part>)
        requires places { All (λ part. part.mount < places_of self.old) parts }
        requires count { (record_of self.old).committed < number }
        ensures stored { (store : Store) (mounts : List ℕ) (keys : ℕ → KeyMap) → store.mounts ≡ table.now
            → numbered parts ≡ over (λ m. (m, keys m)) mounts
            → record_of self.new ≡ storing store mounts number keys (record_of self.old) }
        ensures handle { handle_of self.new ≡ handle_of self.old }
        ensures places { places_of self.new ≡ places_of self.old }
        ensures proc { proc_of self.new ≡ proc_of self.old }
    {
        store_all(&mut self.fetched, table, number, parts.into_vec());
        self.committed += 1;
    }
}

/// Places for what is fetched of each mount, with nothing in them.
fn no_places(alloc: Global, mounts: usize) -> Result<Vec<Option<Fetched>>, Memory>
    ensures len { IfOk result (λ places. length places.items ≡ mounts) }
    ensures none { IfOk result (λ places. (m : ℕ) → fetched_at places.items m ≡ None) }
{
    let mut places = Vec::with_capacity(alloc, mounts)?;
    for _ in 0..mounts {
        places.push(None)?;
    }
    Ok(places)
}

/// The same places again.
fn copy_all(alloc: Global, places: &[Option<Fetched>]) -> Result<Vec<Option<Fetched>>, Memory>
    ensures { IfOk result (λ copied. over (option_map fetched_of) copied.items ≡ over (option_map fetched_of) places.now) }
{
    let mut copied = Vec::with_capacity(alloc, places.len())?;
    for place in places {
        copied.push(copy_of(place)?)?;
    }
    Ok(copied)
}

/// What stands in a place, again.
fn copy_of(place: &Option<Fetched>) -> Result<Option<Fetched>, Memory>
    ensures { IfOk result (λ copied. option_map fetched_of copied ≡ option_map fetched_of place.now) }
{
    match place {
        Some(Fetched { front, kept }) => Ok(Some(Fetched {
            front: *front,
            kept: kept.copy()?,
        })),
        None => Ok(None),
    }
}

/// Puts the keys of each part in the place of its mount, from a front on.
fn keep_all(places: &mut [Option<Fetched>], front: u64, parts: Vec<Part>)
    requires { All (λ part. part.mount < length places.old) parts.items }
    ensures len { length places.new ≡ length places.old }
    ensures kept { (m : ℕ)
        → fetched_at places.new m ≡ kept_parts (λ _. false) front (numbered parts.items) (fetched_at places.old) m }
{
    for part in parts {
        put_part(places, false, front, part);
    }
}

/// Puts what a commit of a number wanted for each part's mount in the place of the mount.
fn store_all(places: &mut [Option<Fetched>], table: &MountTable, number: u64, parts: Vec<Part>)
    requires { All (λ part. part.mount < length places.old) parts.items }
    ensures len { length places.new ≡ length places.old }
    ensures kept { (m : ℕ)
        → fetched_at places.new m
        ≡ kept_parts (counts_in table.now) number (numbered parts.items) (fetched_at places.old) m }
{
    for part in parts {
        let by_key = counts_by_key(table, part.mount);
        put_part(places, by_key, number, part);
    }
}

/// Puts keys in the place of their mount: from a number on, or of a mount by key from the front on that it has.
fn put_part(places: &mut [Option<Fetched>], by_key: bool, number: u64, part: Part)
    requires { part.mount < length places.old }
    ensures len { length places.new ≡ length places.old }
    ensures kept { (m : ℕ)
        → fetched_at places.new m ≡ with_part (λ _. by_key) number (part.mount, part.keys) (fetched_at places.old) m }
{
    let Part { mount, keys } = part;
    if let Some(front) = front_from(&places[mount], by_key, number) {
        places[mount] = Some(Fetched { front, kept: keys });
    }
}

/// From where on a mount is kept, by what is in its place.
fn front_from(place: &Option<Fetched>, by_key: bool, number: u64) -> Option<u64>
    ensures { result ≡ front_from by_key number (option_map fetched_of place.now) }
{
    if !by_key {
        return Some(number);
    }
    match place {
        Some(fetched) => Some(fetched.front),
        None => None,
    }
}
