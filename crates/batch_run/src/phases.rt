//! The phases of a batch: in each the sessions take their steps on threads, with a flusher beside them, and then all
//! handles meet.
ghost use Rattle.std.specs.Prelude.{ℕ, ◌<◌, [], length, slice_index_or, map as over};
ghost use denote.Param.Send.{IsSend, IsSync};
ghost use Rattle.batch_run.specs.Going.{AllWork, AreReady, HaveOwnRoom, IsThrough, Works};
ghost use Rattle.batch_run.specs.Rooms.{ArePhaseRooms, HaveRoom, IsRoom, KeepShown, row_in, told_in};
ghost use Rattle.batch_run.specs.Stands.{Stand, rows_of};
ghost use Rattle.batch_run.specs.Stepping.{IsReady};
ghost use Rattle.batch_run.specs.Workers.{IsResting, number_in};
ghost use Rattle.batch_run.specs.declared.workers.Worker.{Worker};
ghost use Rattle.kdb_handle.specs.Stores.{IsFlusher};
ghost use Rattle.kdb_handle.specs.Views.{lock_of, plan_of};
ghost use Rattle.model_batch.specs.Scripts.{steps_in};
ghost use Rattle.model_maps.specs.KeyMap.{KeyMap};
ghost use Rattle.model_store.specs.Store.{formats_of};

use crate::exchanges::exchange;
use crate::flushing::{flush_often, flushes_in};
use crate::meetings::meet_all;
use crate::places::steps_among;
use crate::rooms::PhaseRooms;
use crate::workers::Worker;
use batch_script::{Phase, Steps};
use kdb_handle::{Flusher, Reply, SharedStore};
use kdb_outside::{Disk, Gate};
use regex_check::Patterns;
use std::alloc::Global;
use std::sync::Wait;
use std::thread;
use std::thread::Threads;
use storage_api::Formats;

/// All phases, one after the other.
pub fn all_phases<
    G: Gate + Sync,
    D: Disk + Send,
    F: Formats + Drop + Sync,
    P: Patterns + Drop + Send,
    R: Threads + Wait + Sync,
>(
    rt: &R,
    alloc: Global,
    gate: &G,
    store: &SharedStore<D, F, P>,
    phases: &[Phase],
    flusher: &mut Flusher,
    workers: &mut [Worker],
    rooms: &mut [PhaseRooms],
)
    requires flusher { IsFlusher (lock_of store.now) flusher.old }
    requires resting { (i : ℕ) (d : Worker) → i < length workers.old
        → IsResting (lock_of store.now) (plan_of store.now) (slice_index_or workers.old i d) }
    requires rooms { ArePhaseRooms (over number_in workers.old) phases.now rooms.old }
    ensures flusher { IsFlusher (lock_of store.now) flusher.new }
    ensures stand { (procs : ℕ → KeyMap)
        → Stand (formats_of F.Formats) (lock_of store.now) (plan_of store.now) procs [] [] workers.old
        → Stand (formats_of F.Formats) (lock_of store.now) (plan_of store.now) procs (rows_of (over number_in workers.old) phases.now) (over row_in rooms.new) workers.new }
    ensures shown { KeepShown rooms.old rooms.new }
{
    for place in 0..phases.len() {
        one_phase(
            rt,
            alloc,
            gate,
            store,
            phases[place].sessions.as_slice(),
            flusher,
            workers,
            rooms[place].told.as_mut_slice(),
        );
    }
}

/// One phase: each session takes its steps in the room of its place, and then all handles meet.
fn one_phase<
    G: Gate + Sync,
    D: Disk + Send,
    F: Formats + Drop + Sync,
    P: Patterns + Drop + Send,
    R: Threads + Wait + Sync,
>(
    rt: &R,
    alloc: Global,
    gate: &G,
    store: &SharedStore<D, F, P>,
    phase: &[Steps],
    flusher: &mut Flusher,
    workers: &mut [Worker],
    rooms: &mut [Vec<Reply>],
)
    requires flusher { IsFlusher (lock_of store.now) flusher.old }
    requires resting { (i : ℕ) (d : Worker) → i < length workers.old
        → IsResting (lock_of store.now) (plan_of store.now) (slice_index_or workers.old i d) }
    requires rooms { HaveRoom (over number_in workers.old) phase.now rooms.old }
    ensures flusher { IsFlusher (lock_of store.now) flusher.new }
    ensures through { IsThrough (formats_of F.Formats) (lock_of store.now) (plan_of store.now) (over (steps_in phase.now) (over number_in workers.old)) (over told_in rooms.new) workers.old workers.new }
{
    exchange(workers, rooms);
    take_all(rt, alloc, gate, store, phase, flusher, workers);
    exchange(workers, rooms);
    meet_all(store, workers);
}

/// Each session takes its steps of a phase, and the flusher makes its flushes. Where one session alone has steps no
/// thread is made.
fn take_all<
    G: Gate + Sync,
    D: Disk + Send,
    F: Formats + Drop + Sync,
    P: Patterns + Drop + Send,
    R: Threads + Wait + Sync,
>(
    rt: &R,
    alloc: Global,
    gate: &G,
    store: &SharedStore<D, F, P>,
    phase: &[Steps],
    flusher: &mut Flusher,
    workers: &mut [Worker],
)
    requires flusher { IsFlusher (lock_of store.now) flusher.old }
    requires ready { (i : ℕ) (d : Worker) → i < length workers.old
        → IsReady (lock_of store.now) (plan_of store.now) (slice_index_or workers.old i d).session.handle (slice_index_or workers.old i d).session.workspace }
    requires rooms { (i : ℕ) (d : Worker) → i < length workers.old
        → IsRoom (length (steps_in phase.now (slice_index_or workers.old i d).session.number)) (slice_index_or workers.old i d).told }
    ensures flusher { IsFlusher (lock_of store.now) flusher.new }
    ensures works { (i : ℕ) (d : Worker) → i < length workers.old
        → Works (formats_of F.Formats) (lock_of store.now) (plan_of store.now) (steps_in phase.now (slice_index_or workers.old i d).session.number) (slice_index_or workers.old i d) (slice_index_or workers.new i d) }
{
    let flushes = flushes_in(phase);
    if phase.len() < 2 {
        take_in_turn(rt, alloc, gate, store, phase, workers);
        flush_often(rt, store, flushes, flusher);
    } else {
        take_with_flushes(rt, alloc, gate, store, phase, flushes, flusher, workers);
    }
}

/// Each session takes its steps on a thread of its own, and the flusher makes so many flushes on one.
fn take_with_flushes<
    G: Gate + Sync,
    D: Disk + Send,
    F: Formats + Drop + Sync,
    P: Patterns + Drop + Send,
    R: Threads + Wait + Sync,
>(
    rt: &R,
    alloc: Global,
    gate: &G,
    store: &SharedStore<D, F, P>,
    phase: &[Steps],
    flushes: u64,
    flusher: &mut Flusher,
    workers: &mut [Worker],
)
    requires flusher { IsFlusher (lock_of store.now) flusher.old }
    requires ready { AreReady (lock_of store.now) (plan_of store.now) workers.old }
    requires rooms { HaveOwnRoom phase.now workers.old }
    ensures flusher { IsFlusher (lock_of store.now) flusher.new }
    ensures works { AllWork (formats_of F.Formats) (lock_of store.now) (plan_of store.now) phase.now workers.old workers.new }
{
    let mut flush = ||
        requires { IsFlusher (lock_of store.now) flusher.now }
        ensures { IsFlusher (lock_of store.entry.now) flusher.exit.now }
    { flush_often(rt, store, flushes, flusher) };
    let mut take = ||
        requires { IsSync G.row × IsSend D.row × IsSync F.row × IsSend P.row × IsSync R.row
            × AreReady (lock_of store.now) (plan_of store.now) workers.now × HaveOwnRoom phase.now workers.now }
        ensures { AllWork (formats_of F.Formats) (lock_of store.entry.now) (plan_of store.entry.now) phase.entry.now workers.entry.now workers.exit.now }
    { take_beside(rt, alloc, gate, store, phase, workers) };
    thread::join_mut(rt, &mut flush, &mut take);
}

fn take_in_turn<G: Gate, D: Disk, F: Formats + Drop, P: Patterns + Drop, R: Wait>(
    rt: &R,
    alloc: Global,
    gate: &G,
    store: &SharedStore<D, F, P>,
    phase: &[Steps],
    workers: &mut [Worker],
)
    requires ready { (i : ℕ) (d : Worker) → i < length workers.old
        → IsReady (lock_of store.now) (plan_of store.now) (slice_index_or workers.old i d).session.handle (slice_index_or workers.old i d).session.workspace }
    requires rooms { (i : ℕ) (d : Worker) → i < length workers.old
        → IsRoom (length (steps_in phase.now (slice_index_or workers.old i d).session.number)) (slice_index_or workers.old i d).told }
    ensures { (i : ℕ) (d : Worker) → i < length workers.old
        → Works (formats_of F.Formats) (lock_of store.now) (plan_of store.now) (steps_in phase.now (slice_index_or workers.old i d).session.number) (slice_index_or workers.old i d) (slice_index_or workers.new i d) }
{
    for worker in workers.iter_mut() {
        take_own(rt, alloc, gate, store, phase, worker);
    }
}

/// Each on a thread of its own.
fn take_beside<
    G: Gate + Sync,
    D: Disk + Send,
    F: Formats + Drop + Sync,
    P: Patterns + Drop + Send,
    R: Threads + Wait + Sync,
>(
    rt: &R,
    alloc: Global,
    gate: &G,
    store: &SharedStore<D, F, P>,
    phase: &[Steps],
    workers: &mut [Worker],
)
    requires ready { (i : ℕ) (d : Worker) → i < length workers.old
        → IsReady (lock_of store.now) (plan_of store.now) (slice_index_or workers.old i d).session.handle (slice_index_or workers.old i d).session.workspace }
    requires rooms { (i : ℕ) (d : Worker) → i < length workers.old
        → IsRoom (length (steps_in phase.now (slice_index_or workers.old i d).session.number)) (slice_index_or workers.old i d).told }
    ensures { (i : ℕ) (d : Worker) → i < length workers.old
        → Works (formats_of F.Formats) (lock_of store.now) (plan_of store.now) (steps_in phase.now (slice_index_or workers.old i d).session.number) (slice_index_or workers.old i d) (slice_index_or workers.new i d) }
{
    let count = workers.len();
    if count == 0 {
        return;
    }
    thread::for_each_mut(
        rt,
        workers,
        count,
        &|_, worker: &mut Worker| take_own(rt, alloc, gate, store, phase, worker),
    );
}

/// A session takes its steps of a phase.
fn take_own<G: Gate, D: Disk, F: Formats + Drop, P: Patterns + Drop, R: Wait>(
    rt: &R,
    alloc: Global,
    gate: &G,
    store: &SharedStore<D, F, P>,
    phase: &[Steps],
    worker: &mut Worker,
)
    requires ready { IsReady (lock_of store.now) (plan_of store.now) worker.old.session.handle worker.old.session.workspace }
    requires room { IsRoom (length (steps_in phase.now worker.old.session.number)) worker.old.told }
    ensures { Works (formats_of F.Formats) (lock_of store.now) (plan_of store.now) (steps_in phase.now worker.old.session.number) worker.old worker.new }
{
    let steps = steps_among(worker.session.number, phase);
    worker
        .session
        .take_steps(gate, rt, alloc, store, steps, &mut worker.told);
}
