//! Watches by a handle: what changes at or below a parent, commit by commit.
ghost use Rattle.std.specs.Prelude.{◌≡◌, ◌≤◌, IfOk, OnErr, OnOk, length};
ghost use mathlib.Core.List.{IsPrefix};
ghost use Rattle.kdb_handle.specs.Story.{commits_of};
ghost use Rattle.kdb_handle.specs.Stores.{IsHandle};
ghost use Rattle.kdb_handle.specs.Views.{lock_of, plan_of};
ghost use Rattle.watch_feed.specs.Watches.{collected, most_room, watching};

use crate::{Handle, SharedStore};
use kdb_outside::Disk;
use key_meta::Memory;
use key_name::KeyName;
use regex_check::Patterns;
use std::alloc::Global;
use std::sync::Wait;
use storage_api::Formats;
use watch_feed::Watch;

impl Handle {
    /// A watch of a parent, which is told of the commits behind those that the handle has seen. It waits for nobody.
    pub fn kdb_watch(&self, alloc: Global, parent: &KeyName, room: usize) -> Result<Watch, Memory>
        requires { (1 ≤ room) × (room ≤ most_room) }
        ensures { IfOk result (λ watch. watch ≡ watching parent.now room (length (commits_of self.now.seen))) }
    {
        Watch::new(alloc, parent.copy()?, room, self.seen())
    }

    /// Has a watch look at the commits that there are in the handle's turn. It has then seen these commits, and the
    /// story tells nothing of the turn.
    pub fn kdb_collect<D: Disk, F: Formats + Drop, P: Patterns + Drop, R: Wait>(
        &mut self,
        rt: &R,
        store: &SharedStore<D, F, P>,
        watch: &mut Watch,
    ) -> Result<(), Memory>
        requires handle { IsHandle (lock_of store.now) (plan_of store.now) self.old }
        requires front { watch.old.front ≤ length (commits_of self.old.seen) }
        ensures handle { IsHandle (lock_of store.now) (plan_of store.now) self.new }
        ensures number { self.new.number ≡ self.old.number }
        ensures rec { self.new.rec ≡ self.old.rec }
        ensures seen { IsPrefix self.old.seen self.new.seen }
        ensures own { self.new.own ≡ self.old.own }
        ensures ok { OnOk result (watch.new ≡ collected watch.old (commits_of self.new.seen)) }
        ensures err { OnErr result (watch.new ≡ watch.old) }
    {
        let Some(seat) = self.seat.take() else {
            unreachable!()
        };
        let mut turn = store.lock.enter(rt, seat);
        let core = turn.value();
        let answer = core.collect(watch);
        self.commits = core.commits();
        self.seat = Some(store.lock.leave(turn));
        answer
    }
}
