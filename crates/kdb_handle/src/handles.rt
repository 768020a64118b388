//! A handle: what a thread has to ask a shared store.
ghost use Rattle.std.specs.Prelude.{◌≡◌, length};
ghost use Rattle.kdb_handle.specs.Story.{commits_of};
ghost use Rattle.model_store.specs.Cores.{accepts};
ghost use Rattle.store_verdict.specs.PreparedView.{prepared_of};
ghost use Rattle.store_verdict.specs.RecordView.{record_of};

use crate::StoryEntry;
use seat_lock::Seat;
use std::marker::Model;
use store_verdict::{Prepared, Record};

/// A handle belongs to one store, and moves into the thread that uses it. To contracts it is what it has seen of the
/// store's story, what it made, and its record. Its type names neither the disk of the store nor its formats.
#[derive(Drop)]
pub struct Handle {
    pub(crate) seat: Option<Seat<StoryEntry>>,
    pub(crate) rec: Record,
    pub(crate) commits: u64,
}

impl Model for Handle {
    ghost use Rattle.kdb_handle.specs.Handles.{HandleValue, coded_handle, handle_with, IsSeated};

    ghost Value = { HandleValue };

    ghost coded = { coded_handle };

    ghost view = { λ h. handle_with h.seat h.rec };

    ghost invariant = { λ h. IsSeated h.seat h.rec h.commits };
}

impl Handle {
    /// Its number: 1, 2 and so on.
    pub fn number(&self) -> u32
        ensures { result ≡ self.now.number }
    {
        self.rec.handle()
    }

    /// How many commits it has seen.
    pub fn seen(&self) -> u64
        ensures { result ≡ length (commits_of self.now.seen) }
    {
        self.commits
    }

    /// Whether a set was prepared for this handle, with the fronts that its record still has of the involved mounts.
    pub fn accepts(&self, prepared: &Prepared) -> bool
        ensures { result ≡ accepts (record_of self.now.rec) self.now.number (prepared_of prepared.now) }
    {
        self.rec.accepts(prepared)
    }
}
