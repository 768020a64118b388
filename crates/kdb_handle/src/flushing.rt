//! A flusher: what a thread has to write the files of a shared store, beside its handles.
ghost use mathlib.Core.List.{IsPrefix};
ghost use Rattle.kdb_handle.specs.Stores.{IsFlusher};
ghost use Rattle.kdb_handle.specs.Views.{lock_of};

use crate::{SharedStore, StoryEntry};
use kdb_outside::Disk;
use regex_check::Patterns;
use seat_lock::Seat;
use std::marker::Model;
use std::sync::Wait;
use storage_api::Formats;

/// A flusher belongs to one store, and moves into the thread that uses it. It asks the store nothing, and makes
/// nothing: to contracts it is its seat.
#[derive(Drop)]
pub struct Flusher {
    pub(crate) seat: Option<Seat<StoryEntry>>,
}

impl Model for Flusher {
    ghost use Rattle.kdb_handle.specs.Handles.{seat_in, IsSat};
    ghost use Rattle.kdb_handle.specs.Story.{Told, coded_told};
    ghost use Rattle.seat_lock.specs.Known.{Known, known_code};

    ghost Value = { Known Told };

    ghost coded = { known_code coded_told };

    ghost view = { λ f. seat_in f.seat };

    ghost invariant = { λ f. IsSat f.seat };
}

impl Flusher {
    /// Writes the files of the commits that wait in the journal, as one turn. The story tells nothing of it, and a
    /// failure of it changes no answer: what was stored stays so, and what was not written is written later.
    pub fn flush<D: Disk, F: Formats + Drop, P: Patterns + Drop, R: Wait>(
        &mut self,
        rt: &R,
        store: &SharedStore<D, F, P>,
    )
        requires { IsFlusher (lock_of store.now) self.old }
        ensures flusher { IsFlusher (lock_of store.now) self.new }
        ensures seen { IsPrefix self.old.seen self.new.seen }
    {
        let Some(seat) = self.seat.take() else {
            unreachable!()
        };
        let mut turn = store.lock.enter(rt, seat);
        let core = turn.value();
        core.flush();
        self.seat = Some(store.lock.leave(turn));
    }
}
