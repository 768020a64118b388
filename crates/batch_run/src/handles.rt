//! Handles are opened for the sessions of a script.
ghost use Rattle.std.specs.Prelude.{◌≡◌, ◌≤◌, ◌+◌, ◌-◌, All, IfOk, OnErr, OnOk, [], length};
ghost use Rattle.std.specs.Vec.{vec_capacity};
ghost use Rattle.batch_run.specs.Closes.{IsFresh};
ghost use Rattle.batch_script.specs.declared.steps.ProcLine.{ProcLine};
ghost use Rattle.batch_run.specs.Opening.{AreOpened};
ghost use Rattle.kdb_handle.specs.Stores.{AreFree, IsStarted};
ghost use Rattle.kdb_handle.specs.Views.{lock_of, plan_of, room_of, seats_of, spare_of};
ghost use Rattle.model_batch.specs.Scripts.{keys_by, sessions_of};
ghost use Rattle.model_maps.specs.KeyMap.{no_keys};
ghost use Rattle.model_names.specs.declared.namespaces.Namespace.TheVariants.{Proc};

use crate::proc_keys::keys_by;
use batch_script::{ProcLine, Script};
use kdb_handle::{FreeSeats, Handle, SharedStore};
use kdb_outside::Disk;
use key_meta::Memory;
use regex_check::Patterns;
use std::alloc::{AllocError, Global};
use storage_api::Formats;

/// Opens a handle for each session, in order. Without memory those that were opened before are left.
pub fn open_all<D: Disk, F: Formats + Drop, P: Patterns + Drop>(
    alloc: Global,
    store: &SharedStore<D, F, P>,
    script: &Script,
    numbers: &[u32],
    seats: &mut FreeSeats,
    handles: &mut Vec<Handle>,
) -> Result<(), Memory>
    requires started { IsStarted (lock_of store.now) (plan_of store.now) }
    requires procs { All (λ (line : ProcLine). line.key.namespace ≡ Proc) script.now.proc }
    requires numbers { numbers.now ≡ sessions_of script.now }
    requires none { handles.old.items ≡ [] }
    requires room { length numbers.now ≤ vec_capacity handles.old }
    requires opened { AreOpened (lock_of store.now) (plan_of store.now) script.now handles.old.items (seats_of seats.old) (room_of seats.old) }
    ensures opened { AreOpened (lock_of store.now) (plan_of store.now) script.now handles.new.items (seats_of seats.new) (room_of seats.new) }
    ensures flusher { spare_of seats.new ≡ spare_of seats.old }
    ensures all { OnOk result (length handles.new.items ≡ length numbers.now) }
{
    for number in numbers {
        let handle = open_one(alloc, store, script.proc.as_slice(), *number, seats)?;
        handles.push_reserved(handle);
    }
    Ok(())
}

/// Opens the next handle, for a session, with the keys in `proc` that lines give it.
fn open_one<D: Disk, F: Formats + Drop, P: Patterns + Drop>(
    alloc: Global,
    store: &SharedStore<D, F, P>,
    lines: &[ProcLine],
    session: u32,
    seats: &mut FreeSeats,
) -> Result<Handle, Memory>
    requires started { IsStarted (lock_of store.now) (plan_of store.now) }
    requires free { AreFree (lock_of store.now) (seats_of seats.old) (room_of seats.old) }
    requires procs { All (λ (line : ProcLine). line.key.namespace ≡ Proc) lines.now }
    ensures fresh { IfOk result (λ handle. IsFresh (lock_of store.now) (plan_of store.now) ((lock_of store.now).seats - length (seats_of seats.old)) (keys_by session lines.now no_keys) handle) }
    ensures free { AreFree (lock_of store.now) (seats_of seats.new) (room_of seats.new) }
    ensures flusher { spare_of seats.new ≡ spare_of seats.old }
    ensures fewer { OnOk result (length (seats_of seats.new) + 1 ≡ length (seats_of seats.old)) }
    ensures same { OnErr result (seats.new ≡ seats.old) }
{
    let keys = keys_by(alloc, session, lines)?;
    match seats.kdb_open(alloc, store, keys) {
        Ok(handle) => Ok(handle),
        Err(_) => Err(AllocError),
    }
}
