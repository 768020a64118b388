//! A handle's merged set: where a set meets a conflict, what it tried is merged with what there is now, and tried
//! again.
ghost use Rattle.std.specs.Prelude.{◌≡◌, ◌≤◌, ◌+◌, ℕ, [], List, length, Err, IfOk, OnOk};
ghost use Rattle.std.specs.FinMap as map;
ghost use Rattle.std.specs.Option.{option_or};
ghost use Rattle.kdb_handle.specs.Handles.{HandleValue};
ghost use Rattle.kdb_handle.specs.Merging.{IsAttempt, IsEnd, IsMergedSet, end_of, tried_in};
ghost use Rattle.kdb_handle.specs.Remaking.{IsKept};
ghost use Rattle.kdb_handle.specs.Sets.{IsStored};
ghost use Rattle.kdb_handle.specs.Stores.{IsHandle};
ghost use Rattle.kdb_handle.specs.Views.{files_in, lock_of, plan_of};
ghost use Rattle.kdb_handle.specs.declared.merging.MergeEnd.TheVariants.{Memory as OutOfMemory};
ghost use Rattle.kdb_handle.specs.declared.merging.Tried.{Tried as Items};
ghost use Rattle.key_merge.specs.declared.strategies.Strategy.{Strategy as Strategies};
ghost use Rattle.key_name.specs.Owner.{IsPoints};
ghost use Rattle.model_names.specs.Name.{Name};
ghost use Rattle.model_store.specs.Sets.{kept};
ghost use Rattle.model_store.specs.Store.{formats_of};
ghost use Rattle.store_core.specs.declared.committing.CommitFault.TheVariants as fault;
ghost use Rattle.store_verdict.specs.RecordView.{proc_of, record_of};

use crate::{Handle, SetFault, SharedStore};
use kdb_outside::Disk;
use key_merge::{Merge3Fault, Strategy, merge3};
use key_meta::{List, Memory};
use key_name::KeyName;
use key_set::KeySet;
use regex_check::Patterns;
use set_split::involved;
use std::alloc::{AllocError, Global};
use std::sync::Wait;
use storage_api::Formats;
use store_core::{CommitFault, Done};
use store_verdict::Record;

/// A try that met a conflict, with the get behind it: the mount, the number of the commit that blocks it, and how many
/// commits the set and the get found.
#[derive(Drop)]
pub struct Tried {
    pub mount: KeyName,
    pub by: u64,
    pub front: u64,
    pub again: u64,
}

/// A merged set that is stored.
#[derive(Drop)]
pub struct Merging {
    pub tried: List<Tried>,
    pub done: Done,
}

/// Why a merged set isn't stored.
#[derive(Drop)]
pub enum MergeEnd {
    /// Behind the last get both sides had changed these keys, and not alike.
    MergeConflicts { names: List<KeyName> },
    /// Each of the tries met a conflict: this is the last one's.
    TriesSpent { mount: KeyName, by: u64, front: u64 },
    /// A set was refused, and not for a conflict.
    Set(SetFault),
    Memory,
}

/// Why a merged set isn't stored, and which tries there were before that.
#[derive(Drop)]
pub struct MergeFault {
    pub tried: List<Tried>,
    pub end: MergeEnd,
}

impl From<AllocError> for MergeEnd {
    ghost from_gives = { λ _ end. end ≡ OutOfMemory };

    fn from(_: AllocError) -> MergeEnd {
        MergeEnd::Memory
    }
}

/// What an attempt comes to: the keys are stored, or others are to be tried.
#[derive(Drop)]
pub(crate) enum Attempt {
    Stored(Done),
    Again(KeySet),
}

/// What a conflict tells.
#[derive(Drop)]
struct Met {
    mount: KeyName,
    by: u64,
    front: u64,
}

impl Handle {
    /// Stores keys at a parent, in some tries. Where a try meets a conflict and isn't the last one, the parent is got
    /// again, and what was tried is merged with what the involved mounts have now, against what the handle kept of them
    /// before. Each set and each get is a turn of its own; between turns, and so outside the lock, are the copies, the
    /// preparing and the merging.
    pub fn kdb_set_merged<D: Disk, F: Formats + Drop, P: Patterns + Drop, R: Wait>(
        &mut self,
        rt: &R,
        alloc: Global,
        store: &SharedStore<D, F, P>,
        parent: &KeyName,
        keys: &mut KeySet,
        strategy: Strategy,
        tries: u32,
    ) -> Result<Merging, MergeFault>
        requires handle { IsHandle (lock_of store.now) (plan_of store.now) self.old }
        requires tries { 1 ≤ tries }
        ensures handle { IsHandle (lock_of store.now) (plan_of store.now) self.new }
        ensures number { self.new.number ≡ self.old.number }
        ensures proc { proc_of self.new.rec ≡ proc_of self.old.rec }
        ensures merged { IsMergedSet (formats_of F.Formats) (files_in store.now) parent.now strategy tries self.old keys.old self.new keys.new (tried_in result) (end_of result) }
    {
        let mut tried = Vec::new(alloc);
        let end = self.try_all(rt, alloc, store, parent, keys, strategy, tries, &mut tried);
        let tried = List::from_vec(tried);
        match end {
            Ok(done) => Ok(Merging { tried, done }),
            Err(end) => Err(MergeFault { tried, end }),
        }
    }

    /// Makes the tries, and tells those that were merged.
    fn try_all<D: Disk, F: Formats + Drop, P: Patterns + Drop, R: Wait>(
        &mut self,
        rt: &R,
        alloc: Global,
        store: &SharedStore<D, F, P>,
        parent: &KeyName,
        keys: &mut KeySet,
        strategy: Strategy,
        tries: u32,
        tried: &mut Vec<Tried>,
    ) -> Result<Done, MergeEnd>
        requires handle { IsHandle (lock_of store.now) (plan_of store.now) self.old }
        requires tries { 1 ≤ tries }
        requires none { tried.old.items ≡ [] }
        ensures handle { IsHandle (lock_of store.now) (plan_of store.now) self.new }
        ensures number { self.new.number ≡ self.old.number }
        ensures proc { proc_of self.new.rec ≡ proc_of self.old.rec }
        ensures merged { IsMergedSet (formats_of F.Formats) (files_in store.now) parent.now strategy tries self.old keys.old self.new keys.new tried.new.items result }
    {
        let mut ours = keys.copy()?;
        for _try in 1..tries {
            match self.attempt(rt, alloc, store, parent, &ours, strategy, tried)? {
                Attempt::Stored(done) => {
                    *keys = ours;
                    return Ok(done);
                }
                Attempt::Again(next) => ours = next,
            }
        }
        let stored = self.last_try(rt, alloc, store, parent, &ours)?;
        *keys = ours;
        Ok(stored)
    }

    /// The last try: a set, behind whose conflict no try is left.
    fn last_try<D: Disk, F: Formats + Drop, P: Patterns + Drop, R: Wait>(
        &mut self,
        rt: &R,
        alloc: Global,
        store: &SharedStore<D, F, P>,
        parent: &KeyName,
        ours: &KeySet,
    ) -> Result<Done, MergeEnd>
        requires { IsHandle (lock_of store.now) (plan_of store.now) self.old }
        ensures handle { IsHandle (lock_of store.now) (plan_of store.now) self.new }
        ensures number { self.new.number ≡ self.old.number }
        ensures proc { proc_of self.new.rec ≡ proc_of self.old.rec }
        ensures end { (strategy : Strategies) (tries : ℕ) (made : List Items) → length made + 1 ≡ tries
            → IsEnd (formats_of F.Formats) (files_in store.now) parent.now strategy tries self.old ours.now made self.new made result }
    {
        match self.kdb_set(rt, alloc, store, parent, ours) {
            Ok(done) => Ok(done),
            Err(SetFault::Commit(CommitFault::Conflict { mount, by, front })) => {
                Err(MergeEnd::TriesSpent { mount, by, front })
            }
            Err(why) => Err(MergeEnd::Set(why)),
        }
    }

    /// An attempt that isn't the last one.
    fn attempt<D: Disk, F: Formats + Drop, P: Patterns + Drop, R: Wait>(
        &mut self,
        rt: &R,
        alloc: Global,
        store: &SharedStore<D, F, P>,
        parent: &KeyName,
        ours: &KeySet,
        strategy: Strategy,
        tried: &mut Vec<Tried>,
    ) -> Result<Attempt, MergeEnd>
        requires { IsHandle (lock_of store.now) (plan_of store.now) self.old }
        ensures handle { IsHandle (lock_of store.now) (plan_of store.now) self.new }
        ensures number { self.new.number ≡ self.old.number }
        ensures proc { proc_of self.new.rec ≡ proc_of self.old.rec }
        ensures attempt { IsAttempt (formats_of F.Formats) (files_in store.now) parent.now strategy 0 self.old ours.now tried.old.items self.new tried.new.items result }
    {
        match self.kdb_set(rt, alloc, store, parent, ours) {
            Ok(done) => Ok(Attempt::Stored(done)),
            Err(SetFault::Commit(CommitFault::Conflict { mount, by, front })) => {
                let met = Met { mount, by, front };
                self.merge_in(rt, alloc, store, parent, ours, strategy, met, tried)
            }
            Err(why) => Err(MergeEnd::Set(why)),
        }
    }

    /// Gets the parent behind a conflict, and merges what was tried with what there is now. Room for the item comes
    /// before the get.
    fn merge_in<D: Disk, F: Formats + Drop, P: Patterns + Drop, R: Wait>(
        &mut self,
        rt: &R,
        alloc: Global,
        store: &SharedStore<D, F, P>,
        parent: &KeyName,
        ours: &KeySet,
        strategy: Strategy,
        met: Met,
        tried: &mut Vec<Tried>,
    ) -> Result<Attempt, MergeEnd>
        requires { IsHandle (lock_of store.now) (plan_of store.now) self.old }
        ensures handle { IsHandle (lock_of store.now) (plan_of store.now) self.new }
        ensures number { self.new.number ≡ self.old.number }
        ensures proc { proc_of self.new.rec ≡ proc_of self.old.rec }
        ensures attempt { (first : HandleValue) → self.old.number ≡ first.number
            → IsStored (formats_of F.Formats) (files_in store.now) first self.old parent.now ours.now (Err (fault.Conflict met.mount met.by met.front))
            → IsAttempt (formats_of F.Formats) (files_in store.now) parent.now strategy 0 first ours.now tried.old.items self.new tried.new.items result }
    {
        let Met { mount, by, front } = met;
        tried.reserve(1)?;
        let points = store.plan.table().points();
        let base = kept_of(alloc, points, &self.rec, parent)?;
        let got = match self.kdb_get(rt, alloc, store, parent) {
            Ok(got) => got,
            Err(_) => return Err(MergeEnd::Memory),
        };
        let again = got.front;
        tried.push_reserved(Tried {
            mount,
            by,
            front,
            again,
        });
        let theirs = kept_of(alloc, points, &self.rec, parent)?;
        match merge3(&base, ours, &theirs, strategy) {
            Ok(next) => Ok(Attempt::Again(next)),
            Err(Merge3Fault::Conflicts { names }) => Err(MergeEnd::MergeConflicts { names }),
            Err(Merge3Fault::Memory) => Err(MergeEnd::Memory),
        }
    }
}

/// The keys that a record keeps of the mounts that a parent involves.
fn kept_of(
    alloc: Global,
    points: &[KeyName],
    rec: &Record,
    parent: &KeyName,
) -> Result<KeySet, Memory>
    requires { IsPoints points.now }
    ensures { IfOk result (IsKept points.now parent.now (record_of rec.now)) }
{
    let mounts = involved(alloc, points, parent)?;
    let mut keys = KeySet::new(alloc);
    for mount in mounts.as_slice() {
        add_kept(&mut keys, rec, *mount)?;
    }
    Ok(keys)
}

/// Adds the keys that a record keeps of a mount, if it keeps some.
fn add_kept(keys: &mut KeySet, rec: &Record, mount: usize) -> Result<(), Memory>
    ensures { OnOk result ((name : Name) → map.get keys.new name ≡ option_or (map.get (kept (record_of rec.now) mount) name) (map.get keys.old name)) }
{
    match rec.kept(mount) {
        Some(kept) => keys.append_all(kept.copy()?),
        None => Ok(()),
    }
}
