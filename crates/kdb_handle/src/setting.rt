//! A handle's sets: prepared by the handle alone, and committed in one turn.
ghost use Rattle.std.specs.Prelude.{◌≡◌, IfErr, IfOk};
ghost use Rattle.general_words.specs.Memory.{UnlessMemory};
ghost use Rattle.kdb_handle.specs.Opened.{store_at};
ghost use Rattle.kdb_handle.specs.Sets.{IsDone, IsSet};
ghost use Rattle.kdb_handle.specs.Stores.{IsHandle};
ghost use Rattle.kdb_handle.specs.Turns.{IsPrepared};
ghost use Rattle.kdb_handle.specs.Views.{files_in, lock_of, plan_of};
ghost use Rattle.model_store.specs.Store.{formats_of};
ghost use Rattle.store_verdict.specs.Preparing.{IsMade, IsRefused};
ghost use Rattle.store_verdict.specs.RecordView.{proc_of, record_of};
ghost use Rattle.store_verdict.specs.declared.faults.PrepareFault.TheVariants as fault;

use crate::{Handle, SharedStore};
use kdb_outside::Disk;
use key_name::KeyName;
use key_set::KeySet;
use regex_check::Patterns;
use std::alloc::Global;
use std::sync::Wait;
use storage_api::Formats;
use store_core::{CommitFault, Done};
use store_verdict::{PrepareFault, Prepared};

/// Why a set isn't stored.
#[derive(Drop)]
pub enum SetFault {
    Prepare(PrepareFault),
    Commit(CommitFault),
}

impl Handle {
    /// What a set of keys at a parent makes against what the handle's record keeps, or the first test that refuses it.
    /// It waits for nobody.
    pub fn prepare<D: Disk, F: Formats + Drop, P: Patterns + Drop>(
        &self,
        alloc: Global,
        store: &SharedStore<D, F, P>,
        parent: &KeyName,
        keys: &KeySet,
    ) -> Result<Prepared, PrepareFault>
        requires { IsHandle (lock_of store.now) (plan_of store.now) self.now }
        ensures made { IfOk result (λ set. IsMade (formats_of F.Formats) (store_at (files_in store.now)) self.now.number (record_of self.now.rec) parent.now keys.now set) }
        ensures refused { IfErr result (λ why. UnlessMemory fault.Memory (IsRefused (formats_of F.Formats) (store_at (files_in store.now)) self.now.number (record_of self.now.rec) parent.now keys.now why) why) }
    {
        store.plan.prepare(alloc, &self.rec, parent, keys)
    }

    /// Commits a set that was prepared for this handle, and for what its record keeps now of the involved mounts. Every
    /// `front` is the number of commits that the turn found. `DiskFault` comes only where the disk failed; a set that
    /// ended so may still come into the files.
    pub fn commit<D: Disk, F: Formats + Drop, P: Patterns + Drop, R: Wait>(
        &mut self,
        rt: &R,
        alloc: Global,
        store: &SharedStore<D, F, P>,
        prepared: Prepared,
    ) -> Result<Done, CommitFault>
        requires handle { IsHandle (lock_of store.now) (plan_of store.now) self.old }
        requires prepared { IsPrepared (formats_of F.Formats) (files_in store.now) self.old.number (record_of self.old.rec) prepared }
        ensures handle { IsHandle (lock_of store.now) (plan_of store.now) self.new }
        ensures number { self.new.number ≡ self.old.number }
        ensures proc { proc_of self.new.rec ≡ proc_of self.old.rec }
        ensures done { IsDone (formats_of F.Formats) (files_in store.now) self.old self.new prepared result }
    {
        let Some(seat) = self.seat.take() else {
            unreachable!()
        };
        let mut turn = store.lock.enter(rt, seat);
        let core = turn.value();
        let done = core.commit(alloc, &store.plan, &mut self.rec, prepared);
        self.commits = core.commits();
        self.seat = Some(store.lock.leave(turn));
        done
    }

    /// Stores keys at a parent: `prepare`, and then `commit`.
    pub fn kdb_set<D: Disk, F: Formats + Drop, P: Patterns + Drop, R: Wait>(
        &mut self,
        rt: &R,
        alloc: Global,
        store: &SharedStore<D, F, P>,
        parent: &KeyName,
        keys: &KeySet,
    ) -> Result<Done, SetFault>
        requires { IsHandle (lock_of store.now) (plan_of store.now) self.old }
        ensures handle { IsHandle (lock_of store.now) (plan_of store.now) self.new }
        ensures number { self.new.number ≡ self.old.number }
        ensures proc { proc_of self.new.rec ≡ proc_of self.old.rec }
        ensures set { IsSet (formats_of F.Formats) (files_in store.now) self.old self.new parent.now keys.now result }
    {
        match self.prepare(alloc, store, parent, keys) {
            Ok(prepared) => match self.commit(rt, alloc, store, prepared) {
                Ok(done) => Ok(done),
                Err(why) => Err(SetFault::Commit(why)),
            },
            Err(why) => Err(SetFault::Prepare(why)),
        }
    }
}
