//! A store from its opening to its close.
ghost use Rattle.std.specs.Prelude.{◌≡◌, ◌<◌, ◌≤◌, ◌^◌, All, IfOk, List, OnErr, Option, length, true};
ghost use Rattle.std.specs.List.{AllByRecursion};
ghost use Rattle.kdb_outside.specs.Frames.{GoesOn};
ghost use Rattle.kdb_outside.specs.Images.{Image};
ghost use Rattle.intent_journal.specs.States.{IsCalm};
ghost use Rattle.journal_codec.specs.declared.files.FileText.{FileText as Item};
ghost use Rattle.model_crashes.specs.Runs.{Run};
ghost use Rattle.model_store.specs.Store.{formats_of};
ghost use Rattle.store_play.specs.Causes.{IsCaused};
ghost use Rattle.store_play.specs.Ran.{HasPlayedNew, RunsOpened, RunsStore, StandsNew};
ghost use Rattle.store_verdict.specs.ProcKeys.{AreProc};

use crate::{Answer, Event, Flushes, Handles, play};
use commit_log::History;
use kdb_outside::Disk;
use key_meta::{List, Memory};
use key_set::KeySet;
use regex_check::Patterns;
use std::alloc::Global;
use storage_api::Formats;
use store_core::{Closed, Core, OpenFault, OpenRefused, Opened, Plan, open_store};

/// A store that was opened, played and closed: its disk, its matcher, the commits since its opening, and the answers.
#[derive(Drop)]
pub struct Ran<D: Disk, P: Patterns + Drop> {
    pub disk: D,
    pub patterns: P,
    pub history: History,
    pub answers: List<Answer>,
    pub flushes: Flushes,
}

/// Opens the store of a calm disk, plays events by new handles, with a flush behind each of these numbers of them, and
/// closes it. What a crash then leaves is calm again. It is refused where the store isn't opened, and where memory is
/// wanting before the first event; the disk and the matcher are then handed back. Where no fault came the disk is calm
/// again, refused or not.
pub fn run<D: Disk, F: Formats + Drop, P: Patterns + Drop>(
    alloc: Global,
    disk: D,
    formats: F,
    patterns: P,
    procs: &[KeySet],
    places: usize,
    events: &[Event],
    flushes: &[usize],
) -> Result<Ran<D, P>, OpenRefused<D, P>>
    requires tells { D.tells disk ≡ true }
    requires calm { (files : Image) × (doubt : Option (List Item)) × IsCalm (D.seen disk) (D.may_leave disk) files doubt }
    requires few { length procs.now < 2 ^ 32 }
    requires proc { AllByRecursion AreProc procs.now }
    ensures { RunsStore (formats_of F.Formats) F.reads F.is_bad_at D.Disk P.refusals procs.now places events.now disk patterns result }
{
    match open_store(alloc, disk, formats, patterns) {
        Ok(opened) => run_opened(alloc, opened, procs, places, events, flushes),
        Err(refused) => Err(refused),
    }
}

/// Plays events by new handles on a store that was just opened, and closes it.
fn run_opened<D: Disk, F: Formats + Drop, P: Patterns + Drop>(
    alloc: Global,
    opened: Opened<D, F, P>,
    procs: &[KeySet],
    places: usize,
    events: &[Event],
    flushes: &[usize],
) -> Result<Ran<D, P>, OpenRefused<D, P>>
    requires stands { (start : D) × (run : Run)
        × StandsNew (formats_of F.Formats) D.Disk opened.plan.mounted procs.now opened.core start run }
    requires few { length procs.now < 2 ^ 32 }
    requires proc { AllByRecursion AreProc procs.now }
    ensures { RunsOpened (formats_of F.Formats) D.Disk P.refusals opened.plan.mounted procs.now places events.now opened.core result }
{
    let plan = opened.plan;
    let mut core = opened.core;
    let mut told = Flushes {
        wrote: 0,
        idle: 0,
        failed: 0,
    };
    let played = play_new(
        alloc, &plan, &mut core, procs, places, events, flushes, &mut told,
    );
    let Closed {
        disk,
        patterns,
        history,
    } = core.close();
    match played {
        Ok(answers) => Ok(Ran {
            disk,
            patterns,
            history,
            answers,
            flushes: told,
        }),
        Err(_) => Err(OpenRefused {
            fault: OpenFault::Memory,
            disk,
            patterns,
        }),
    }
}

/// Plays events by new handles, on a store that was just opened.
fn play_new<D: Disk, F: Formats + Drop, P: Patterns + Drop>(
    alloc: Global,
    plan: &Plan<F>,
    core: &mut Core<D, P>,
    procs: &[KeySet],
    places: usize,
    events: &[Event],
    flushes: &[usize],
    told: &mut Flushes,
) -> Result<List<Answer>, Memory>
    requires stands { (opened : D) × (run : Run)
        × StandsNew (formats_of F.Formats) D.Disk plan.now.mounted procs.now core.old opened run }
    requires few { length procs.now < 2 ^ 32 }
    requires proc { AllByRecursion AreProc procs.now }
    ensures played { (opened : D) (run : Run)
        → StandsNew (formats_of F.Formats) D.Disk plan.now.mounted procs.now core.old opened run
        → IfOk result (λ answers. HasPlayedNew (formats_of F.Formats) D.Disk plan.now.mounted procs.now places opened run events.now answers core.new) }
    ensures causes { IfOk result (All (IsCaused (D.faults core.old.journal.disk) (D.faults core.new.journal.disk) (P.refusals core.old.patterns) (P.refusals core.new.patterns))) }
    ensures goes { GoesOn D.Disk core.old.journal.disk core.new.journal.disk }
    ensures later { P.refusals core.old.patterns ≤ P.refusals core.new.patterns }
    ensures none { OnErr result (core.new ≡ core.old) }
{
    let mut handles = Handles::new(alloc, plan, procs, places)?;
    play(alloc, plan, core, &mut handles, events, flushes, told)
}
