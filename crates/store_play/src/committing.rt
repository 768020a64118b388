//! A commit that is played.
ghost use Rattle.std.specs.Prelude.{◌≡◌, ◌<◌, ◌≤◌, ℕ, IfErr, IfOk, OnErr, OnOk, Option, Some, None, true};
ghost use Rattle.kdb_outside.specs.Frames.{GoesOn};
ghost use Rattle.model_crashes.specs.Runs.{Run};
ghost use Rattle.model_maps.specs.KeyMap.{KeyMap};
ghost use Rattle.model_store.specs.Cores.{accepts};
ghost use Rattle.model_store.specs.Sets as sets;
ghost use Rattle.model_store.specs.Store.{formats_of};
ghost use Rattle.model_store.specs.Worlds.{World};
ghost use Rattle.store_play.specs.Causes.{IsCaused};
ghost use Rattle.store_play.specs.Handles.{Holds, IsHolding};
ghost use Rattle.store_play.specs.Plays.{Stepped, IsKeptBack};
ghost use Rattle.store_play.specs.Stages.{stage_of};
ghost use Rattle.store_play.specs.declared.events.Event.TheVariants as event;
ghost use Rattle.store_verdict.specs.PreparedView.{prepared_of};
ghost use Rattle.store_verdict.specs.RecordView.{handle_of, record_of};

use crate::{Answer, Skip};
use kdb_outside::Disk;
use regex_check::Patterns;
use std::alloc::Global;
use storage_api::Formats;
use store_core::{Core, Plan};
use store_verdict::{Prepared, Record};

/// A handle commits the set of a number. The set is then no longer held, whatever the answer.
pub(crate) fn play_commit<D: Disk, F: Formats + Drop, P: Patterns + Drop>(
    alloc: Global,
    plan: &Plan<F>,
    core: &mut Core<D, P>,
    records: &mut [Record],
    places: &mut [Option<Prepared>],
    handle: usize,
    number: usize,
) -> Answer
    requires { IsHolding (formats_of F.Formats) D.Disk plan.now.mounted core.old records.old places.old }
    ensures stepped { (procs : ℕ → KeyMap) (opened : D) (known : ℕ → Option sets.Prepared) (world : World) (run : Run)
        → Holds (formats_of F.Formats) D.Disk plan.now.mounted procs opened core.old records.old places.old known world run
        → Stepped (formats_of F.Formats) D.Disk plan.now.mounted procs opened (stage_of core.old records.old places.old known run) (event.Commit handle number) result core.new records.new places.new }
    ensures goes { GoesOn D.Disk core.old.journal.disk core.new.journal.disk }
    ensures later { P.refusals core.old.patterns ≤ P.refusals core.new.patterns }
    ensures cause { IsCaused (D.faults core.old.journal.disk) (D.faults core.new.journal.disk) (P.refusals core.old.patterns) (P.refusals core.new.patterns) result }
{
    if handle >= records.len() {
        return Answer::Skipped(Skip::NoHandle);
    }
    if number >= places.len() {
        return Answer::Skipped(Skip::NoSet);
    }
    match take(&records[handle], &mut places[number]) {
        Ok(set) => Answer::Committed(core.commit(alloc, plan, &mut records[handle], set)),
        Err(why) => Answer::Skipped(why),
    }
}

/// Takes the set from its place where the record accepts it.
fn take(rec: &Record, place: &mut Option<Prepared>) -> Result<Prepared, Skip>
    ensures ok { IfOk result (λ set. place.old ≡ Some set) }
    ensures accepted { IfOk result (λ set. accepts (record_of rec.now) (handle_of rec.now) (prepared_of set) ≡ true) }
    ensures free { OnOk result (place.new ≡ None) }
    ensures err { IfErr result (IsKeptBack rec.now place.old) }
    ensures same { OnErr result (place.new ≡ place.old) }
{
    let Some(set) = place.take() else {
        return Err(Skip::NoSet);
    };
    if rec.accepts(&set) {
        return Ok(set);
    }
    *place = Some(set);
    Err(Skip::NotAccepted)
}
