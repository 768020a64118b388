//! The sessions of a script.
ghost use Rattle.std.specs.Prelude.{◌≡◌, ◌≢◌, length, None, IfOk, IfSome, List};
ghost use Rattle.batch_run.specs.Closes.{AreBack, AreFresh, Closes, TellOwn};
ghost use Rattle.batch_run.specs.Needs.{HasRoom};
ghost use Rattle.batch_run.specs.Shown.{IsOrdered};
ghost use Rattle.kdb_handle.specs.Stores.{IsFlusher};
ghost use Rattle.kdb_handle.specs.Views.{files_in, lock_of, plan_of};
ghost use Rattle.model_batch.specs.Scripts.{IsFairScript, procs_of, sessions_of};
ghost use Rattle.model_history.specs.History.{Commit};
ghost use Rattle.model_store.specs.Store.{formats_of};

use crate::numbers::sessions_of;
use crate::phases::all_phases;
use crate::rooms::{PhaseRooms, rooms_of};
use crate::showing::show_all;
use crate::workers::{Worker, rise_all, seat_all};
use batch_script::Script;
use kdb_handle::{Flusher, Handle, Reply, SharedStore, Transcripts};
use kdb_outside::{Disk, Gate};
use key_meta::{List, Memory};
use regex_check::Patterns;
use std::alloc::Global;
use std::sync::Wait;
use std::thread::Threads;
use storage_api::Formats;

/// What came of the sessions of a script: their handles, the flusher, and what they replied, unless there was no memory
/// for it.
#[derive(Drop)]
pub struct Sessions {
    pub handles: List<Handle>,
    pub flusher: Flusher,
    pub transcripts: Option<Transcripts>,
}

/// Has the sessions of a script take their steps, phase by phase, each in a thread of its own with the handle of its
/// place. Between phases all handles meet. In each phase the flusher makes a flush for eight steps that may make a
/// commit, rounded up; no reply tells of it. Room for each reply is taken before the first step: without it no step is
/// taken, and the handles come back as they were given.
pub fn run_sessions<
    G: Gate + Sync,
    D: Disk + Send,
    F: Formats + Drop + Sync,
    P: Patterns + Drop + Send,
    R: Threads + Wait + Sync,
>(
    rt: &R,
    alloc: Global,
    gate: &G,
    store: &SharedStore<D, F, P>,
    handles: List<Handle>,
    flusher: Flusher,
    script: &Script,
) -> Sessions
    requires script { IsOrdered script.now }
    requires flusher { IsFlusher (lock_of store.now) flusher }
    requires many { length handles ≡ length (sessions_of script.now) }
    requires fresh { AreFresh (lock_of store.now) (plan_of store.now) (procs_of script.now) handles }
    ensures flusher { IsFlusher (lock_of store.now) result.flusher }
    ensures back { AreBack (lock_of store.now) (plan_of store.now) (length handles) result.handles }
    ensures fair { (history : List Commit) → Closes (length handles) history result.handles
        → IfSome result.transcripts (λ transcripts. IsFairScript (formats_of F.Formats) (files_in store.now) history script.now transcripts) }
    ensures counts { IfSome result.transcripts (TellOwn script.now result.handles) }
    ensures kept { result.transcripts ≡ None → (result.handles ≡ handles) × (result.flusher ≡ flusher) }
{
    let handles = handles.into_vec();
    match prepare(alloc, script, handles.len()) {
        Ok(room) => run_with(rt, alloc, gate, store, handles, flusher, script, room),
        Err(_) => Sessions {
            handles: List::from_vec(handles),
            flusher,
            transcripts: None,
        },
    }
}

/// All room that the sessions of a script need.
#[derive(Drop)]
struct Room {
    numbers: Vec<u32>,
    rooms: Vec<PhaseRooms>,
    shown: Vec<List<List<Reply>>>,
    workers: Vec<Worker>,
    handles: Vec<Handle>,
}

/// Takes it.
fn prepare(alloc: Global, script: &Script, handles: usize) -> Result<Room, Memory>
    ensures { IfOk result (λ room. HasRoom script.now handles room) }
{
    let phases = script.phases.as_slice();
    let numbers = sessions_of(alloc, script)?;
    let rooms = rooms_of(alloc, &numbers, phases)?;
    Ok(Room {
        numbers,
        rooms,
        shown: Vec::with_capacity(alloc, phases.len())?,
        workers: Vec::with_capacity(alloc, handles)?,
        handles: Vec::with_capacity(alloc, handles)?,
    })
}

/// As `run_sessions`, with all room.
fn run_with<
    G: Gate + Sync,
    D: Disk + Send,
    F: Formats + Drop + Sync,
    P: Patterns + Drop + Send,
    R: Threads + Wait + Sync,
>(
    rt: &R,
    alloc: Global,
    gate: &G,
    store: &SharedStore<D, F, P>,
    handles: Vec<Handle>,
    flusher: Flusher,
    script: &Script,
    room: Room,
) -> Sessions
    requires script { IsOrdered script.now }
    requires flusher { IsFlusher (lock_of store.now) flusher }
    requires many { length handles.items ≡ length (sessions_of script.now) }
    requires fresh { AreFresh (lock_of store.now) (plan_of store.now) (procs_of script.now) handles.items }
    requires room { HasRoom script.now (length handles.items) room }
    ensures flusher { IsFlusher (lock_of store.now) result.flusher }
    ensures back { AreBack (lock_of store.now) (plan_of store.now) (length handles.items) result.handles }
    ensures fair { (history : List Commit) → Closes (length handles.items) history result.handles
        → IfSome result.transcripts (λ transcripts. IsFairScript (formats_of F.Formats) (files_in store.now) history script.now transcripts) }
    ensures counts { IfSome result.transcripts (TellOwn script.now result.handles) }
    ensures some { result.transcripts ≢ None }
{
    let Room {
        numbers,
        mut rooms,
        shown,
        workers,
        handles: back,
    } = room;
    let mut flusher = flusher;
    let phases = script.phases.as_slice();
    let mut workers = seat_all(alloc, handles, &numbers, workers);
    all_phases(
        rt,
        alloc,
        gate,
        store,
        phases,
        &mut flusher,
        workers.as_mut_slice(),
        rooms.as_mut_slice(),
    );
    let transcripts = show_all(alloc, &numbers, phases, rooms.as_mut_slice(), shown);
    Sessions {
        handles: List::from_vec(rise_all(workers, back)),
        flusher,
        transcripts: Some(transcripts),
    }
}
