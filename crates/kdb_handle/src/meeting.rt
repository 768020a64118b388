//! Handles that meet.
ghost use Rattle.std.specs.Prelude.{◌≡◌};
ghost use mathlib.Core.List.{IsPrefix};
ghost use Rattle.kdb_handle.specs.Stores.{IsHandle};
ghost use Rattle.kdb_handle.specs.Views.{lock_of, plan_of};
ghost use Rattle.seat_lock.specs.Story.{longer};

use crate::{Handle, SharedStore};
use kdb_outside::Disk;
use regex_check::Patterns;
use storage_api::Formats;

impl Handle {
    /// Lets a handle see all that another has seen. Its record stays. It waits for nobody.
    pub fn meet<D: Disk, F: Formats + Drop, P: Patterns + Drop>(
        &mut self,
        store: &SharedStore<D, F, P>,
        other: &mut Handle,
    )
        requires { IsHandle (lock_of store.now) (plan_of store.now) self.old
            × IsHandle (lock_of store.now) (plan_of store.now) other.old }
        ensures handle { IsHandle (lock_of store.now) (plan_of store.now) self.new }
        ensures number { self.new.number ≡ self.old.number }
        ensures met { self.new.seen ≡ longer self.old.seen other.old.seen }
        ensures seen { IsPrefix self.old.seen self.new.seen × IsPrefix other.old.seen self.new.seen }
        ensures own { self.new.own ≡ self.old.own }
        ensures rec { self.new.rec ≡ self.old.rec }
        ensures other { other.new ≡ other.old }
    {
        let (Some(mut ours), Some(mut theirs)) = (self.seat.take(), other.seat.take()) else {
            unreachable!()
        };
        if ours.front() < theirs.front() {
            self.commits = other.commits;
        }
        store.lock.meet(&mut ours, &mut theirs);
        self.seat = Some(ours);
        other.seat = Some(theirs);
    }
}
