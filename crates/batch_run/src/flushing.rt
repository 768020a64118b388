//! The flusher of a batch at work. It writes the files of the sessions' commits beside them, and no session can tell.
ghost use Rattle.batch_run.specs.Flushes.{is_storing};
ghost use Rattle.std.specs.Prelude.{◌≡◌};
ghost use Rattle.kdb_handle.specs.Stores.{IsFlusher};
ghost use Rattle.kdb_handle.specs.Views.{lock_of};

use batch_script::{Step, Steps};
use kdb_handle::{Flusher, SharedStore};
use kdb_outside::Disk;
use regex_check::Patterns;
use std::sync::Wait;
use storage_api::Formats;

/// A step that may make a commit, whose files are then to be written.
fn is_storing(step: &Step) -> bool
    ensures { result ≡ is_storing step.now }
{
    match step {
        Step::Set { .. } | Step::Merge { .. } | Step::Undo { .. } => true,
        Step::Get { .. }
        | Step::Put { .. }
        | Step::MetaStep { .. }
        | Step::Del { .. }
        | Step::Cut { .. }
        | Step::Look { .. }
        | Step::Watch { .. }
        | Step::Poll => false,
    }
}

/// How many of some steps may make a commit.
fn storing_among(steps: &[Step]) -> u64 {
    let mut count: u64 = 0;
    for step in steps {
        if is_storing(step) {
            count = count.saturating_add(1);
        }
    }
    count
}

/// How many flushes a phase has: one for eight steps that may make a commit, rounded up.
pub fn flushes_in(phase: &[Steps]) -> u64 {
    let mut count: u64 = 0;
    for steps in phase {
        count = count.saturating_add(storing_among(steps.steps.as_slice()));
    }
    count.div_ceil(8)
}

/// So many flushes, each a turn of its own. No gate is called.
pub fn flush_often<D: Disk, F: Formats + Drop, P: Patterns + Drop, R: Wait>(
    rt: &R,
    store: &SharedStore<D, F, P>,
    flushes: u64,
    flusher: &mut Flusher,
)
    requires { IsFlusher (lock_of store.now) flusher.old }
    ensures { IsFlusher (lock_of store.now) flusher.new }
{
    for _ in 0..flushes {
        flusher.flush(rt, store);
    }
}
