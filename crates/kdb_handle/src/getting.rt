//! A handle's get.
ghost use Rattle.std.specs.Prelude.{◌≡◌, ℕ};
ghost use mathlib.Core.List.{IsPrefix};
ghost use Rattle.kdb_handle.specs.Gets.{IsGotAt};
ghost use Rattle.kdb_handle.specs.Opened.{store_at};
ghost use Rattle.kdb_handle.specs.Story.{commits_of};
ghost use Rattle.kdb_handle.specs.Stores.{IsHandle};
ghost use Rattle.kdb_handle.specs.Views.{files_in, lock_of, plan_of};
ghost use Rattle.model_maps.specs.KeyMap.{KeyMap};
ghost use Rattle.model_store.specs.Legal.{IsLegal};
ghost use Rattle.model_store.specs.Store.{store_of, formats_of};
ghost use Rattle.store_verdict.specs.RecordView.{proc_of, record_of};

use crate::{Handle, SharedStore};
use kdb_outside::Disk;
use key_name::KeyName;
use mounted_files::GetFault;
use regex_check::Patterns;
use std::alloc::Global;
use std::sync::Wait;
use storage_api::Formats;
use store_core::Got;

impl Handle {
    /// The keys of a parent, as the commits make them that there are in the handle's turn. It has then seen these
    /// commits. It is refused exactly where an involved mount is bad, with the lowest one and why.
    pub fn kdb_get<D: Disk, F: Formats + Drop, P: Patterns + Drop, R: Wait>(
        &mut self,
        rt: &R,
        alloc: Global,
        store: &SharedStore<D, F, P>,
        parent: &KeyName,
    ) -> Result<Got, GetFault>
        requires { IsHandle (lock_of store.now) (plan_of store.now) self.old }
        ensures handle { IsHandle (lock_of store.now) (plan_of store.now) self.new }
        ensures number { self.new.number ≡ self.old.number }
        ensures proc { proc_of self.new.rec ≡ proc_of self.old.rec }
        ensures seen { IsPrefix self.old.seen self.new.seen }
        ensures own { self.new.own ≡ self.old.own }
        ensures legal { IsLegal (formats_of F.Formats) (store_at (files_in store.now)) (commits_of self.new.seen) }
        ensures got { (procs : ℕ → KeyMap) → procs self.old.number ≡ proc_of self.old.rec
            → IsGotAt (store_of (files_in store.now) procs) (files_in store.now) (commits_of self.new.seen) self.old.number parent.now (record_of self.old.rec) (record_of self.new.rec) result }
    {
        let Some(seat) = self.seat.take() else {
            unreachable!()
        };
        let mut turn = store.lock.enter(rt, seat);
        let core = turn.value();
        let got = core.get(alloc, &store.plan, &mut self.rec, parent);
        self.commits = core.commits();
        self.seat = Some(store.lock.leave(turn));
        got
    }
}
