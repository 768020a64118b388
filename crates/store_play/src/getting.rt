//! A get that is played.
ghost use Rattle.std.specs.Prelude.{ℕ, List, Option};
ghost use Rattle.model_crashes.specs.Runs.{Run};
ghost use Rattle.model_maps.specs.KeyMap.{KeyMap};
ghost use Rattle.model_store.specs.Sets as sets;
ghost use Rattle.model_store.specs.Store.{formats_of};
ghost use Rattle.model_store.specs.Worlds.{World};
ghost use Rattle.store_play.specs.Causes.{IsCaused};
ghost use Rattle.store_play.specs.Handles.{AreHandles, Holds};
ghost use Rattle.store_play.specs.Plays.{Stepped};
ghost use Rattle.store_play.specs.Stages.{stage_of};
ghost use Rattle.store_play.specs.declared.events.Event.TheVariants as event;
ghost use Rattle.store_verdict.specs.declared.prepared.Prepared.{Prepared};

use crate::{Answer, Skip};
use kdb_outside::Disk;
use key_name::KeyName;
use regex_check::Patterns;
use std::alloc::Global;
use storage_api::Formats;
use store_core::{Core, Plan};
use store_verdict::Record;

/// A handle gets a parent.
pub(crate) fn play_get<D: Disk, F: Formats + Drop, P: Patterns + Drop>(
    alloc: Global,
    plan: &Plan<F>,
    core: &Core<D, P>,
    records: &mut [Record],
    handle: usize,
    parent: &KeyName,
) -> Answer
    requires handles { (procs : ℕ → KeyMap) × AreHandles plan.now.mounted procs records.old }
    ensures stepped { (procs : ℕ → KeyMap) (opened : D) (places : List (Option Prepared))
        (known : ℕ → Option sets.Prepared) (world : World) (run : Run)
        → Holds (formats_of F.Formats) D.Disk plan.now.mounted procs opened core.now records.old places known world run
        → Stepped (formats_of F.Formats) D.Disk plan.now.mounted procs opened (stage_of core.now records.old places known run) (event.Get handle parent.now) result core.now records.new places }
    ensures cause { (faults now refusals later : ℕ) → IsCaused faults now refusals later result }
{
    if handle >= records.len() {
        return Answer::Skipped(Skip::NoHandle);
    }
    let got = core.get(alloc, plan, &mut records[handle], parent);
    Answer::Got(got)
}
