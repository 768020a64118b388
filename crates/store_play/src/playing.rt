//! Events that are played one after the other.
ghost use Rattle.std.specs.Prelude.{◌≡◌, ◌≤◌, ℕ, All, IfOk, List, OnErr, Option};
ghost use Rattle.kdb_outside.specs.Frames.{GoesOn};
ghost use Rattle.model_crashes.specs.Runs.{Run};
ghost use Rattle.model_maps.specs.KeyMap.{KeyMap};
ghost use Rattle.model_store.specs.Sets as sets;
ghost use Rattle.model_store.specs.Store.{formats_of};
ghost use Rattle.model_store.specs.Worlds.{World};
ghost use Rattle.store_play.specs.Causes.{IsCaused};
ghost use Rattle.store_play.specs.Handles.{Holds, IsHolding, places_in, records_in};
ghost use Rattle.store_play.specs.Plays.{HasPlayed, Stepped};
ghost use Rattle.store_play.specs.Stages.{stage_of};

use crate::committing::play_commit;
use crate::flushing::flush_behind;
use crate::getting::play_get;
use crate::preparing::play_prepare;
use crate::{Answer, Event, Flushes, Handles};
use kdb_outside::Disk;
use key_meta::{List, Memory};
use regex_check::Patterns;
use std::alloc::Global;
use storage_api::Formats;
use store_core::{Core, Plan};

/// Plays events one after the other, and makes a flush behind each of these numbers of them. Where memory for the
/// answers is wanting, none is played.
///
/// Each call that an event makes is judged as the definitions of a store say, and the store has one owner: each answer
/// is the one that is meant by the history, the handle's fronts and what was asked. The core stands again, with a run
/// that went on by these answers, so that a crash at any moment since the opening leaves what the run says. A fault of
/// the disk and a refused pattern are answered only where their counts rose.
pub fn play<D: Disk, F: Formats + Drop, P: Patterns + Drop>(
    alloc: Global,
    plan: &Plan<F>,
    core: &mut Core<D, P>,
    handles: &mut Handles,
    events: &[Event],
    flushes: &[usize],
    told: &mut Flushes,
) -> Result<List<Answer>, Memory>
    requires holding { IsHolding (formats_of F.Formats) D.Disk plan.now.mounted core.old (records_in handles.old) (places_in handles.old) }
    ensures played { (procs : ℕ → KeyMap) (opened : D) (known : ℕ → Option sets.Prepared) (world : World) (run : Run)
        → Holds (formats_of F.Formats) D.Disk plan.now.mounted procs opened core.old (records_in handles.old) (places_in handles.old) known world run
        → IfOk result (λ answers. HasPlayed (formats_of F.Formats) D.Disk plan.now.mounted procs opened (stage_of core.old (records_in handles.old) (places_in handles.old) known run) events.now answers core.new (records_in handles.new) (places_in handles.new)) }
    ensures causes { IfOk result (All (IsCaused (D.faults core.old.journal.disk) (D.faults core.new.journal.disk) (P.refusals core.old.patterns) (P.refusals core.new.patterns))) }
    ensures goes { GoesOn D.Disk core.old.journal.disk core.new.journal.disk }
    ensures later { P.refusals core.old.patterns ≤ P.refusals core.new.patterns }
    ensures none { OnErr result ((core.new ≡ core.old) × (handles.new ≡ handles.old)) }
{
    let mut answers = Vec::with_capacity(alloc, events.len())?;
    for event in events {
        let count = answers.len() + 1;
        let answer = turn(alloc, plan, core, handles, event, flushes, count, told);
        answers.push_reserved(answer);
    }
    Ok(List::from_vec(answers))
}

/// Plays one event, and makes the flushes that come behind so many events. A flush is no event: what is kept stays, and
/// so does what the run stored.
fn turn<D: Disk, F: Formats + Drop, P: Patterns + Drop>(
    alloc: Global,
    plan: &Plan<F>,
    core: &mut Core<D, P>,
    handles: &mut Handles,
    event: &Event,
    flushes: &[usize],
    count: usize,
    told: &mut Flushes,
) -> Answer
    requires holding { IsHolding (formats_of F.Formats) D.Disk plan.now.mounted core.old (records_in handles.old) (places_in handles.old) }
    ensures stepped { (procs : ℕ → KeyMap) (opened : D) (known : ℕ → Option sets.Prepared) (world : World) (run : Run)
        → Holds (formats_of F.Formats) D.Disk plan.now.mounted procs opened core.old (records_in handles.old) (places_in handles.old) known world run
        → Stepped (formats_of F.Formats) D.Disk plan.now.mounted procs opened (stage_of core.old (records_in handles.old) (places_in handles.old) known run) event.now result core.new (records_in handles.new) (places_in handles.new) }
    ensures goes { GoesOn D.Disk core.old.journal.disk core.new.journal.disk }
    ensures later { P.refusals core.old.patterns ≤ P.refusals core.new.patterns }
    ensures cause { IsCaused (D.faults core.old.journal.disk) (D.faults core.new.journal.disk) (P.refusals core.old.patterns) (P.refusals core.new.patterns) result }
{
    let answer = step(alloc, plan, core, handles, event);
    flush_behind(core, flushes, count, told);
    answer
}

/// Plays one event.
fn step<D: Disk, F: Formats + Drop, P: Patterns + Drop>(
    alloc: Global,
    plan: &Plan<F>,
    core: &mut Core<D, P>,
    handles: &mut Handles,
    event: &Event,
) -> Answer
    requires holding { IsHolding (formats_of F.Formats) D.Disk plan.now.mounted core.old (records_in handles.old) (places_in handles.old) }
    ensures stepped { (procs : ℕ → KeyMap) (opened : D) (known : ℕ → Option sets.Prepared) (world : World) (run : Run)
        → Holds (formats_of F.Formats) D.Disk plan.now.mounted procs opened core.old (records_in handles.old) (places_in handles.old) known world run
        → Stepped (formats_of F.Formats) D.Disk plan.now.mounted procs opened (stage_of core.old (records_in handles.old) (places_in handles.old) known run) event.now result core.new (records_in handles.new) (places_in handles.new) }
    ensures goes { GoesOn D.Disk core.old.journal.disk core.new.journal.disk }
    ensures later { P.refusals core.old.patterns ≤ P.refusals core.new.patterns }
    ensures cause { IsCaused (D.faults core.old.journal.disk) (D.faults core.new.journal.disk) (P.refusals core.old.patterns) (P.refusals core.new.patterns) result }
{
    match event {
        Event::Get { handle, parent } => {
            play_get(alloc, plan, core, &mut handles.records, *handle, parent)
        }
        Event::Prepare {
            handle,
            number,
            parent,
            keys,
        } => play_prepare(
            alloc,
            plan,
            core,
            &handles.records,
            &mut handles.places,
            *handle,
            *number,
            parent,
            keys,
        ),
        Event::Commit { handle, number } => play_commit(
            alloc,
            plan,
            core,
            &mut handles.records,
            &mut handles.places,
            *handle,
            *number,
        ),
    }
}
