//! An open store that handles share.
ghost use Rattle.std.specs.Prelude.{◌≡◌, ◌≤◌, ◌<◌, ℕ, None};
ghost use Rattle.kdb_handle.specs.NewStores.{SharesStore};
ghost use Rattle.kdb_handle.specs.Views.{files_of, plan_of};
ghost use Rattle.model_maps.specs.KeyMap.{KeyMap};
ghost use Rattle.model_store.specs.Records.{no_record};
ghost use Rattle.model_store.specs.Store.{store_of, formats_of};
ghost use Rattle.model_store.specs.Worlds.{first_world};
ghost use Rattle.store_core.specs.Cores.{StandsIn};

use crate::shared::Fresh;
use crate::{FreeSeats, Shared};
use kdb_outside::Disk;
use regex_check::Patterns;
use seat_lock::{Lock, NewLock, NoLock, Storied};
use std::alloc::Global;
use std::snapshot::Snapshot;
use storage_api::Formats;
use store_core::{Core, Plan};

/// What an opening fixes, beside a lock over what changes. A thread needs no more than a `&` to it.
pub struct Locked<V: Storied, F: Formats + Drop> {
    pub(crate) plan: Plan<F>,
    pub(crate) lock: Lock<V>,
}

/// An open store that handles share: its plan, and the lock over its core.
pub type SharedStore<D, F, P> = Locked<Shared<D, F, P>, F>;

/// A shared store, and the seats for its handles and its flusher.
pub struct NewStore<D: Disk, F: Formats + Drop, P: Patterns + Drop> {
    pub store: SharedStore<D, F, P>,
    pub seats: FreeSeats,
}

/// There was no memory. The plan and the core come back.
#[derive(Drop)]
pub struct NotShared<D: Disk, F: Formats + Drop, P: Patterns + Drop> {
    pub plan: Plan<F>,
    pub core: Core<D, P>,
}

impl<D: Disk, F: Formats + Drop, P: Patterns + Drop> NewStore<D, F, P> {
    /// Shares a store that was just opened, for 1 to 32 handles and a flusher. It is refused for want of memory alone.
    pub fn new(
        alloc: Global,
        plan: Plan<F>,
        core: Core<D, P>,
        handles: u32,
    ) -> Result<NewStore<D, F, P>, NotShared<D, F, P>>
        requires handles { (0 < handles) × (handles ≤ 32) }
        requires world { (procs : ℕ → KeyMap)
            → StandsIn (formats_of F.Formats) (store_of (files_of plan) procs) core (λ r. no_record) (λ p. None) first_world }
        ensures { SharesStore D.row.coded P.refusals plan core handles result }
    {
        let shared = Shared {
            core,
            plan: Snapshot::of(&plan),
            entries: 1,
            fresh: Fresh::Nothing,
        };
        match Lock::new(alloc, shared, handles + 1) {
            Ok(NewLock { lock, seats }) => Ok(NewStore {
                store: Locked { plan, lock },
                seats: FreeSeats::of_new(seats),
            }),
            Err(NoLock { value }) => {
                let Shared { core, .. } = value;
                Err(NotShared { plan, core })
            }
        }
    }
}

impl<V: Storied, F: Formats + Drop> Locked<V, F> {
    /// What the opening of the store fixed.
    pub fn plan(&self) -> &Plan<F>
        ensures { result.now ≡ plan_of self.now }
    {
        &self.plan
    }
}
