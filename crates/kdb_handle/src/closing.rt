//! The close of a shared store.
ghost use Rattle.std.specs.Prelude.{◌≡◌, ◌<◌, ◌≤◌, ◌+◌, ◌++◌, ◌∷◌, [], All, length};
ghost use Rattle.std.specs.Option.{option_or};
ghost use Rattle.std.specs.Vec.{vec_capacity};
ghost use Rattle.intent_journal.specs.Journal.{JournalValue};
ghost use Rattle.kdb_handle.specs.Closing.{IsClosed};
ghost use Rattle.kdb_handle.specs.Datums.{coded_journal};
ghost use Rattle.kdb_handle.specs.Handles.{seat_in};
ghost use Rattle.kdb_handle.specs.Opened.{opening_in};
ghost use Rattle.kdb_handle.specs.Stores.{AreFree, HasFlusher, IsHandle, IsStarted, seat_of, seats_back};
ghost use Rattle.kdb_handle.specs.Views.{files_in, lock_of, plan_of, room_of, seats_of, spare_of};
ghost use Rattle.kdb_handle.specs.Story.{Told};
ghost use Rattle.model_store.specs.Store.{formats_of};
ghost use Rattle.seat_lock.specs.Known.{Place};

use crate::{Flusher, FreeSeats, Handle, Locked, Shared, SharedStore, StoryEntry};
use kdb_outside::Disk;
use regex_check::Patterns;
use seat_lock::Seat;
use storage_api::Formats;
use store_core::Closed;

impl<D: Disk, F: Formats + Drop, P: Patterns + Drop> Locked<Shared<D, F, P>, F> {
    /// Ends the store, with all handles that were opened, the seats that no handle got, and the flusher where it was
    /// given; and gives its disk, its matcher and its history back. What commits left to be written is written now, and
    /// a failure of it is no refusal.
    pub fn close_store(
        self,
        seats: FreeSeats,
        handles: Vec<Handle>,
        flusher: Option<Flusher>,
    ) -> Closed<D, P>
        requires started { IsStarted (lock_of self) (plan_of self) }
        requires free { AreFree (lock_of self) (seats_of seats) (room_of seats) }
        requires handles { All (IsHandle (lock_of self) (plan_of self)) handles.items }
        requires flusher { HasFlusher (lock_of self) (spare_of seats) flusher }
        requires all { length handles.items + length (seats_of seats) + 1 ≡ (lock_of self).seats }
        ensures { (journal : JournalValue D)
            → (opening_in (lock_of self).start).journal ≡ (coded_journal D.row.coded).code journal
            → IsClosed (formats_of F.Formats) D.Disk P.refusals (files_in self) journal (opening_in (lock_of self).start) (length handles.items) handles.items result }
    {
        let seats = gather(left_over(seats, flusher), handles);
        let Locked { plan: _plan, lock } = self;
        let Shared { core, .. } = lock.close(seats);
        core.close()
    }
}

/// The seats that no handle got, and the flusher's.
fn left_over(seats: FreeSeats, given: Option<Flusher>) -> Vec<Seat<StoryEntry>>
    requires room { length (seats_of seats) < room_of seats }
    requires flusher { (lock : Place Told) × HasFlusher lock (spare_of seats) given }
    ensures items { result.items ≡ seats_of seats ++ seat_in (option_or (spare_of seats) given) ∷ [] }
    ensures room { vec_capacity result ≡ room_of seats }
{
    let FreeSeats {
        mut seats,
        flusher: kept,
    } = seats;
    seats.push_reserved(seat_of_flusher(kept, given));
    seats
}

/// The seats of all handles, behind others.
fn gather(mut seats: Vec<Seat<StoryEntry>>, mut handles: Vec<Handle>) -> Vec<Seat<StoryEntry>>
    requires room { length handles.items + length seats.items ≤ vec_capacity seats }
    ensures { result.items ≡ seats.items ++ seats_back handles.items }
{
    while let Some(handle) = handles.pop() {
        seats.push_reserved(seat_of(handle));
    }
    seats
}

/// The seat of the flusher, which is kept still or was given.
fn seat_of_flusher(kept: Option<Flusher>, given: Option<Flusher>) -> Seat<StoryEntry>
    requires { (lock : Place Told) × HasFlusher lock kept given }
    ensures { result ≡ seat_in (option_or kept given) }
{
    let Some(Flusher { seat }) = kept.or(given) else {
        unreachable!()
    };
    let Some(seat) = seat else { unreachable!() };
    seat
}

/// The seat of a handle, whose record is dropped.
fn seat_of(handle: Handle) -> Seat<StoryEntry>
    ensures { result ≡ seat_of handle }
{
    let Handle { seat, .. } = handle;
    let Some(seat) = seat else { unreachable!() };
    seat
}
