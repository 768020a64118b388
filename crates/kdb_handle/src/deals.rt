//! The seats of a shared store that no handle has yet.
ghost use Rattle.std.specs.Prelude.{◌≡◌, ◌<◌, ◌+◌, None, length};
ghost use Rattle.kdb_handle.specs.NewStores.{OpensHandle};
ghost use Rattle.kdb_handle.specs.Stores.{AreFree, HasFlusher, IsStarted};
ghost use Rattle.kdb_handle.specs.Story.{Told};
ghost use Rattle.kdb_handle.specs.Views.{lock_of, plan_of, room_of, seats_of, spare_of};
ghost use Rattle.seat_lock.specs.Known.{Place};
ghost use Rattle.seat_lock.specs.Story.{AreNew};
ghost use Rattle.store_verdict.specs.ProcKeys.{AreProc};

use crate::{Flusher, Handle, SharedStore, StoryEntry};
use kdb_outside::Disk;
use key_meta::Memory;
use key_set::KeySet;
use regex_check::Patterns;
use seat_lock::Seat;
use std::alloc::Global;
use storage_api::Formats;
use store_verdict::Record;

/// The seats that no handle has yet, the one of the lowest number first, and the store's flusher until it is given.
#[derive(Drop)]
pub struct FreeSeats {
    pub(crate) seats: Vec<Seat<StoryEntry>>,
    pub(crate) flusher: Option<Flusher>,
}

/// Why a handle isn't opened.
#[derive(Clone, Copy, PartialEq, Eq)]
pub enum NoHandle {
    /// As many were opened as there are seats.
    NoSeat,
    Memory,
}

impl FreeSeats {
    /// The seats of a new lock, the last of which is the flusher's.
    pub(crate) fn of_new(seats: Vec<Seat<StoryEntry>>) -> FreeSeats
        requires { 0 < length seats.items }
        ensures free { (lock : Place Told) → AreNew lock seats.items → AreFree lock (seats_of result) (room_of result) }
        ensures flusher { (lock : Place Told) → AreNew lock seats.items → HasFlusher lock (spare_of result) None }
        ensures all { length (seats_of result) + 1 ≡ length seats.items }
    {
        let mut seats = seats;
        let Some(last) = seats.pop() else {
            unreachable!()
        };
        FreeSeats {
            seats,
            flusher: Some(Flusher { seat: Some(last) }),
        }
    }

    /// The flusher of the store. There is none exactly where it was given before.
    pub fn flusher(&mut self) -> Option<Flusher>
        ensures given { result ≡ spare_of self.old }
        ensures none { spare_of self.new ≡ None }
        ensures seats { (seats_of self.new ≡ seats_of self.old) × (room_of self.new ≡ room_of self.old) }
    {
        self.flusher.take()
    }

    /// Opens the handle of the next number, from 1 on, with keys of its own in `proc`. It has fetched nothing and made
    /// nothing.
    pub fn kdb_open<D: Disk, F: Formats + Drop, P: Patterns + Drop>(
        &mut self,
        alloc: Global,
        store: &SharedStore<D, F, P>,
        proc: KeySet,
    ) -> Result<Handle, NoHandle>
        requires started { IsStarted (lock_of store.now) (plan_of store.now) }
        requires free { AreFree (lock_of store.now) (seats_of self.old) (room_of self.old) }
        requires proc { AreProc proc }
        ensures { OpensHandle (lock_of store.now) (plan_of store.now) proc self.old self.new result }
    {
        let Some(first) = self.seats.first() else {
            return Err(NoHandle::NoSeat);
        };
        let number = first.number();
        let Ok(rec) = Record::new(alloc, number, store.plan.table().len(), proc) else {
            return Err(NoHandle::Memory);
        };
        let seat = self.seats.remove(0);
        Ok(Handle {
            seat: Some(seat),
            rec,
            commits: 0,
        })
    }
}
