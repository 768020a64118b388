//! A session at work.
ghost use Rattle.std.specs.Prelude.{◌≡◌, ◌≤◌, [], length, map as over};
ghost use Rattle.std.specs.Vec.{vec_capacity};
ghost use Rattle.batch_run.specs.Workers.{AreSeated, handle_in};

use crate::sessions::Session;
use crate::workspaces::Workspace;
use kdb_handle::{Handle, Reply};
use key_set::KeySet;
use std::alloc::Global;

/// A session, and its replies in the present phase.
#[derive(Drop)]
pub struct Worker {
    pub session: Session,
    pub told: Vec<Reply>,
}

/// Gives each session its handle, in order. No working set has a key yet, and nothing is watched.
pub fn seat_all(
    alloc: Global,
    handles: Vec<Handle>,
    numbers: &[u32],
    workers: Vec<Worker>,
) -> Vec<Worker>
    requires many { length handles.items ≡ length numbers.now }
    requires none { workers.items ≡ [] }
    requires room { length handles.items ≤ vec_capacity workers }
    ensures handles { over handle_in result.items ≡ handles.items }
    ensures seated { AreSeated numbers.now result.items }
{
    let mut workers = workers;
    for handle in handles {
        let place = workers.len();
        workers.push_reserved(Worker {
            session: Session {
                number: numbers[place],
                passed: 0,
                handle,
                workspace: Workspace {
                    keys: KeySet::new(alloc),
                    watch: None,
                },
            },
            told: Vec::new(alloc),
        });
    }
    workers
}

/// The handles of all sessions, in order.
pub fn rise_all(workers: Vec<Worker>, handles: Vec<Handle>) -> Vec<Handle>
    requires none { handles.items ≡ [] }
    requires room { length workers.items ≤ vec_capacity handles }
    ensures { result.items ≡ over handle_in workers.items }
{
    let mut handles = handles;
    for worker in workers {
        let Worker { session, .. } = worker;
        let Session { handle, .. } = session;
        handles.push_reserved(handle);
    }
    handles
}
