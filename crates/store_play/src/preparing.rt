//! A prepare that is played.
ghost use Rattle.std.specs.Prelude.{◌≡◌, ◌<◌, ℕ, IfErr, IfOk, OnErr, Option, Some};
ghost use Rattle.general_words.specs.Memory.{UnlessMemory};
ghost use Rattle.model_crashes.specs.Runs.{Run};
ghost use Rattle.model_maps.specs.KeyMap.{KeyMap};
ghost use Rattle.model_store.specs.Sets as sets;
ghost use Rattle.model_store.specs.Store.{formats_of, store_of};
ghost use Rattle.model_store.specs.Worlds.{World};
ghost use Rattle.store_play.specs.Causes.{IsCaused};
ghost use Rattle.store_play.specs.Handles.{Holds};
ghost use Rattle.store_play.specs.Plays.{Stepped};
ghost use Rattle.store_play.specs.Stages.{stage_of};
ghost use Rattle.store_play.specs.declared.events.Event.TheVariants as event;
ghost use Rattle.store_verdict.specs.Preparing.{IsMade, IsRefused};
ghost use Rattle.store_verdict.specs.RecordView.{handle_of, record_of};
ghost use Rattle.store_verdict.specs.declared.faults.PrepareFault.TheVariants as fault;
ghost use Rattle.store_verdict.specs.declared.prepared.Prepared as code;
ghost use Rattle.store_verdict.specs.declared.records.Record as records;

use crate::{Answer, Skip};
use kdb_outside::Disk;
use key_name::KeyName;
use key_set::KeySet;
use regex_check::Patterns;
use std::alloc::Global;
use storage_api::Formats;
use store_core::{Core, Plan};
use store_verdict::{PrepareFault, Prepared, Record};

/// A handle prepares a set, which is held under a number. The core isn't asked.
pub(crate) fn play_prepare<D: Disk, F: Formats + Drop, P: Patterns + Drop>(
    alloc: Global,
    plan: &Plan<F>,
    _core: &Core<D, P>,
    records: &[Record],
    places: &mut [Option<Prepared>],
    handle: usize,
    number: usize,
    parent: &KeyName,
    keys: &KeySet,
) -> Answer
    ensures stepped { (procs : ℕ → KeyMap) (opened : D) (known : ℕ → Option sets.Prepared) (world : World) (run : Run)
        → Holds (formats_of F.Formats) D.Disk plan.now.mounted procs opened _core.now records.now places.old known world run
        → Stepped (formats_of F.Formats) D.Disk plan.now.mounted procs opened (stage_of _core.now records.now places.old known run) (event.Prepare handle number parent.now keys.now) result _core.now records.now places.new }
    ensures cause { (faults now refusals later : ℕ) → IsCaused faults now refusals later result }
{
    if handle >= records.len() {
        return Answer::Skipped(Skip::NoHandle);
    }
    if number >= places.len() {
        return Answer::Skipped(Skip::NoPlace);
    }
    Answer::Prepared(hold(
        alloc,
        plan,
        &records[handle],
        &mut places[number],
        parent,
        keys,
    ))
}

/// Prepares a set and puts it into its place.
fn hold<F: Formats + Drop>(
    alloc: Global,
    plan: &Plan<F>,
    rec: &Record,
    place: &mut Option<Prepared>,
    parent: &KeyName,
    keys: &KeySet,
) -> Result<(), PrepareFault>
    ensures made { IfOk result (λ _. (set : code.Prepared) × (place.new ≡ Some set) × ((procs : ℕ → KeyMap) → IsMade (formats_of F.Formats) (store_of plan.now.mounted procs) (handle_of rec.now) (record_of rec.now) parent.now keys.now set)) }
    ensures refused { IfErr result (λ why. UnlessMemory fault.Memory ((procs : ℕ → KeyMap) → IsRefused (formats_of F.Formats) (store_of plan.now.mounted procs) (handle_of rec.now) (record_of rec.now) parent.now keys.now why) why) }
    ensures same { OnErr result (place.new ≡ place.old) }
{
    match plan.prepare(alloc, rec, parent, keys) {
        Ok(set) => {
            *place = Some(set);
            Ok(())
        }
        Err(why) => Err(why),
    }
}
