//! All handles meet, so that each has seen what any has seen.
ghost use Rattle.std.specs.Prelude.{◌≡◌, ℕ, ◌<◌, length, slice_index_or};
ghost use mathlib.Core.List.{IsPrefix};
ghost use Rattle.batch_run.specs.Going.{Meets};
ghost use Rattle.batch_run.specs.declared.workers.Worker.{Worker};
ghost use Rattle.kdb_handle.specs.Stores.{IsHandle};
ghost use Rattle.kdb_handle.specs.Views.{lock_of, plan_of};

use crate::workers::Worker;
use kdb_handle::SharedStore;
use kdb_outside::Disk;
use regex_check::Patterns;
use storage_api::Formats;

/// Lets all handles meet: the first one hears from all others, and then tells them.
pub fn meet_all<D: Disk, F: Formats + Drop, P: Patterns + Drop>(
    store: &SharedStore<D, F, P>,
    workers: &mut [Worker],
)
    requires { (i : ℕ) (d : Worker) → i < length workers.old
        → IsHandle (lock_of store.now) (plan_of store.now) (slice_index_or workers.old i d).session.handle }
    ensures each { (i : ℕ) (d : Worker) → i < length workers.old
        → Meets (lock_of store.now) (plan_of store.now) (slice_index_or workers.old i d) (slice_index_or workers.new i d) }
    ensures all { (i j : ℕ) (d : Worker) → i < length workers.old → j < length workers.old
        → IsPrefix (slice_index_or workers.old j d).session.handle.seen (slice_index_or workers.new i d).session.handle.seen }
{
    if let Some((first, others)) = workers.split_first_mut() {
        gather(store, first, others);
        spread(store, first, others);
    }
}

/// A handle sees what any of the others has seen.
fn gather<D: Disk, F: Formats + Drop, P: Patterns + Drop>(
    store: &SharedStore<D, F, P>,
    first: &mut Worker,
    others: &mut [Worker],
)
    requires first { IsHandle (lock_of store.now) (plan_of store.now) first.old.session.handle }
    requires others { (i : ℕ) (d : Worker) → i < length others.old
        → IsHandle (lock_of store.now) (plan_of store.now) (slice_index_or others.old i d).session.handle }
    ensures first { Meets (lock_of store.now) (plan_of store.now) first.old first.new }
    ensures others { others.new ≡ others.old }
    ensures all { (i : ℕ) (d : Worker) → i < length others.old
        → IsPrefix (slice_index_or others.old i d).session.handle.seen first.new.session.handle.seen }
{
    for other in others.iter_mut() {
        first.session.handle.meet(store, &mut other.session.handle);
    }
}

/// The others see what a handle has seen.
fn spread<D: Disk, F: Formats + Drop, P: Patterns + Drop>(
    store: &SharedStore<D, F, P>,
    first: &mut Worker,
    others: &mut [Worker],
)
    requires first { IsHandle (lock_of store.now) (plan_of store.now) first.old.session.handle }
    requires others { (i : ℕ) (d : Worker) → i < length others.old
        → IsHandle (lock_of store.now) (plan_of store.now) (slice_index_or others.old i d).session.handle }
    ensures first { first.new ≡ first.old }
    ensures others { (i : ℕ) (d : Worker) → i < length others.old
        → Meets (lock_of store.now) (plan_of store.now) (slice_index_or others.old i d) (slice_index_or others.new i d) }
    ensures all { (i : ℕ) (d : Worker) → i < length others.old
        → IsPrefix first.old.session.handle.seen (slice_index_or others.new i d).session.handle.seen }
{
    for other in others.iter_mut() {
        other.session.handle.meet(store, &mut first.session.handle);
    }
}
