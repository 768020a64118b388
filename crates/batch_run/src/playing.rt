//! Plays a script on an open store.
ghost use Rattle.std.specs.Prelude.{◌≡◌, ℕ, ◌+◌, None, length};
ghost use Rattle.batch_script.specs.declared.steps.Script.{Script};
ghost use Rattle.batch_run.specs.Opening.{AreOpened, HasPlaces};
ghost use Rattle.batch_run.specs.Played.{IsPlayable, IsPlayed};
ghost use Rattle.kdb_handle.specs.Stores.{AreFree, HasFlusher, IsStarted};
ghost use Rattle.kdb_handle.specs.Views.{files_in, files_of, first_story, lock_of, plan_of, room_of, seats_of, spare_of};
ghost use Rattle.model_batch.specs.Scripts.{sessions_of};
ghost use Rattle.model_maps.specs.KeyMap.{KeyMap};
ghost use Rattle.model_store.specs.Records.{no_record};
ghost use Rattle.model_store.specs.Store.{store_of, formats_of};
ghost use Rattle.model_store.specs.Worlds.{first_world};
ghost use Rattle.store_core.specs.Cores.{StandsIn};
ghost use Rattle.store_core.specs.declared.cores.Core.{Core};

use crate::handles::open_all;
use crate::running::{Sessions, run_sessions};
use crate::seating::{Places, places_of, seats_for};
use batch_script::Script;
use kdb_handle::{FreeSeats, Handle, NewStore, NotShared, SharedStore, Transcripts};
use kdb_outside::{Disk, Gate};
use key_meta::List;
use regex_check::Patterns;
use std::alloc::Global;
use std::sync::Wait;
use std::thread::Threads;
use storage_api::Formats;
use store_core::{Closed, Core, Plan};

/// What came of a script: the closed store, and what the sessions replied, unless there was no memory for it.
#[derive(Drop)]
pub struct Played<D: Disk, P: Patterns + Drop> {
    pub closed: Closed<D, P>,
    pub transcripts: Option<Transcripts>,
}

/// Has the sessions of a script take their steps on a store that was just opened, and closes it.
pub fn play_on<
    G: Gate + Sync,
    D: Disk + Send,
    F: Formats + Drop + Sync,
    P: Patterns + Drop + Send,
    R: Threads + Wait + Sync,
>(rt: &R, alloc: Global, gate: &G, plan: Plan<F>, core: Core<D, P>, script: &Script) -> Played<D, P>
    requires script { IsPlayable script.now }
    requires world { (procs : ℕ → KeyMap)
        → StandsIn (formats_of F.Formats) (store_of (files_of plan) procs) core (λ r. no_record) (λ p. None) first_world }
    ensures { IsPlayed (formats_of F.Formats) D.Disk P.refusals (files_of plan) script.now core result }
{
    match places_of(alloc, script) {
        Ok(places) => play_shared(rt, alloc, gate, plan, core, script, places),
        Err(_) => close_unplayed(NotShared { plan, core }),
    }
}

/// As `play_on`, with all that is made ready before.
fn play_shared<
    G: Gate + Sync,
    D: Disk + Send,
    F: Formats + Drop + Sync,
    P: Patterns + Drop + Send,
    R: Threads + Wait + Sync,
>(
    rt: &R,
    alloc: Global,
    gate: &G,
    plan: Plan<F>,
    core: Core<D, P>,
    script: &Script,
    places: Places,
) -> Played<D, P>
    requires script { IsPlayable script.now }
    requires world { (procs : ℕ → KeyMap)
        → StandsIn (formats_of F.Formats) (store_of (files_of plan) procs) core (λ r. no_record) (λ p. None) first_world }
    requires places { HasPlaces script.now places }
    ensures { IsPlayed (formats_of F.Formats) D.Disk P.refusals (files_of plan) script.now core result }
{
    match NewStore::new(alloc, plan, core, seats_for(&places.numbers)) {
        Ok(NewStore { store, seats }) => {
            play_with_seats(rt, alloc, gate, store, seats, script, places)
        }
        Err(unshared) => close_unplayed(unshared),
    }
}

/// As `play_on`, with a store that is shared and whose seats no handle has.
fn play_with_seats<
    G: Gate + Sync,
    D: Disk + Send,
    F: Formats + Drop + Sync,
    P: Patterns + Drop + Send,
    R: Threads + Wait + Sync,
>(
    rt: &R,
    alloc: Global,
    gate: &G,
    store: SharedStore<D, F, P>,
    seats: FreeSeats,
    script: &Script,
    places: Places,
) -> Played<D, P>
    requires script { IsPlayable script.now }
    requires started { IsStarted (lock_of store) (plan_of store) }
    requires free { AreFree (lock_of store) (seats_of seats) (room_of seats) }
    requires flusher { HasFlusher (lock_of store) (spare_of seats) None }
    requires all { length (seats_of seats) + 1 ≡ (lock_of store).seats }
    requires places { HasPlaces script.now places }
    ensures { (core : Core D P) → (lock_of store).start ≡ first_story D.row.coded P.refusals (plan_of store) core
        → IsPlayed (formats_of F.Formats) D.Disk P.refusals (files_in store) script.now core result }
{
    let mut seats = seats;
    let Places {
        numbers,
        mut handles,
    } = places;
    match open_all(alloc, &store, script, &numbers, &mut seats, &mut handles) {
        Ok(()) => play_with_handles(rt, alloc, gate, store, seats, handles, script),
        Err(_) => Played {
            closed: store.close_store(seats, handles, None),
            transcripts: None,
        },
    }
}

/// As `play_on`, with a handle for each session.
fn play_with_handles<
    G: Gate + Sync,
    D: Disk + Send,
    F: Formats + Drop + Sync,
    P: Patterns + Drop + Send,
    R: Threads + Wait + Sync,
>(
    rt: &R,
    alloc: Global,
    gate: &G,
    store: SharedStore<D, F, P>,
    seats: FreeSeats,
    handles: Vec<Handle>,
    script: &Script,
) -> Played<D, P>
    requires script { IsPlayable script.now }
    requires started { IsStarted (lock_of store) (plan_of store) }
    requires opened { AreOpened (lock_of store) (plan_of store) script.now handles.items (seats_of seats) (room_of seats) }
    requires flusher { HasFlusher (lock_of store) (spare_of seats) None }
    requires all { length handles.items ≡ length (sessions_of script.now) }
    ensures { (core : Core D P) → (lock_of store).start ≡ first_story D.row.coded P.refusals (plan_of store) core
        → IsPlayed (formats_of F.Formats) D.Disk P.refusals (files_in store) script.now core result }
{
    let mut seats = seats;
    let Some(flusher) = seats.flusher() else {
        unreachable!()
    };
    let Sessions {
        handles,
        flusher,
        transcripts,
    } = run_sessions(
        rt,
        alloc,
        gate,
        &store,
        List::from_vec(handles),
        flusher,
        script,
    );
    let closed = store.close_store(seats, handles.into_vec(), Some(flusher));
    Played {
        closed,
        transcripts,
    }
}

/// Closes a store that is not shared, so that no session takes a step.
fn close_unplayed<D: Disk, F: Formats + Drop, P: Patterns + Drop>(
    unshared: NotShared<D, F, P>,
) -> Played<D, P>
    requires { (procs : ℕ → KeyMap)
        → StandsIn (formats_of F.Formats) (store_of (files_of unshared.plan) procs) unshared.core (λ r. no_record) (λ p. None) first_world }
    ensures { (script : Script)
        → IsPlayed (formats_of F.Formats) D.Disk P.refusals (files_of unshared.plan) script unshared.core result }
{
    let NotShared { core, .. } = unshared;
    Played {
        closed: core.close(),
        transcripts: None,
    }
}
