//! The core of an open store, as the value under the lock of its handles.

use crate::StoryEntry;
use kdb_outside::Disk;
use regex_check::Patterns;
use seat_lock::Storied;
use std::snapshot::Snapshot;
use storage_api::Formats;
use store_core::{Core, Plan};
use store_verdict::Prepared;

/// What the present turn has told: nothing, that its set is a commit, that its set was begun and the disk failed, or
/// that the matcher refused a pattern of it.
#[derive(Drop)]
pub enum Fresh {
    Nothing,
    Committed(Snapshot<Prepared>),
    Failed(Snapshot<Prepared>),
    Refused(Snapshot<Prepared>),
}

/// The core of an open store, which stands for the story of its handles: the opening, and then the commits, the sets
/// that failed and those with a refused pattern, in the order of the turns. It stores the commits; of the other entries
/// it has the count alone.
#[derive(Drop)]
pub struct Shared<D: Disk, F: Formats + Drop, P: Patterns + Drop> {
    pub(crate) core: Core<D, P>,
    pub(crate) plan: Snapshot<Plan<F>>,
    pub(crate) entries: u64,
    pub(crate) fresh: Fresh,
}

impl<D: Disk, F: Formats + Drop, P: Patterns + Drop> Storied for Shared<D, F, P> {
    ghost use Rattle.std.specs.Prelude.{[], ◌∷◌};
    ghost use Rattle.kdb_handle.specs.Opened.{opening_of};
    ghost use Rattle.kdb_handle.specs.Shares.{IsShared, told_now};
    ghost use Rattle.kdb_handle.specs.Story.{Opened, maker_of};
    ghost use Rattle.model_store.specs.Store.{formats_of};

    type Entry = StoryEntry;

    ghost maker = { maker_of };

    ghost stands = { λ value log. IsShared (formats_of F.Formats) D.Disk D.row.coded P.refusals value.core value.entries log };

    ghost first = { λ value. Opened (opening_of D.row.coded value.plan.value.mounted value.core.journal (P.refusals value.core.patterns) value.core.wrote) ∷ [] };

    ghost more = { λ value. told_now value.fresh };

    fn count(&self) -> u64 {
        self.entries
    }
}
