//! A store over a disk in memory, whose crashes leave calm disks.
ghost use Rattle.std.specs.Prelude.{◌≡◌, IfOk, IfSome, length};
ghost use Rattle.std.specs.List.{AllByRecursion};
ghost use Rattle.store_cases.specs.Disks.{IsCalmDisk, CrashesCalm};
ghost use Rattle.store_play.specs.Ran.{disk_of};
ghost use Rattle.store_verdict.specs.ProcKeys.{AreProc};

use crate::starts::Start;
use crate::steps::{Past, Steps};
use all_formats::AllFormats;
use disk_memory::MemDisk;
use journal_steps::{name_of_journal, name_of_journal2};
use key_meta::{List, Memory};
use key_set::KeySet;
use regex_check::ListedPatterns;
use std::alloc::Global;
use store_core::{OpenFault, OpenRefused};
use store_play::{Answer, Flushes, Ran, run};

/// How many handles there are, and how many places for sets.
const HANDLES: usize = 4;

const PLACES: usize = 8;

const NO_FLUSHES: Flushes = Flushes {
    wrote: 0,
    idle: 0,
    failed: 0,
};

/// What came of a run.
#[derive(Drop)]
pub struct Played {
    pub left: MemDisk,
    pub answers: Result<List<Answer>, OpenFault>,
    pub flushes: Flushes,
}

/// The disk of a start, unless it has a journal.
pub fn first_disk(
    alloc: Global,
    start: &Start,
    stop_after: Option<u64>,
) -> Result<Option<MemDisk>, Memory>
    ensures { IfOk result (λ disk. IfSome disk IsCalmDisk) }
{
    let disk = start.disk(stop_after)?;
    let former = name_of_journal(alloc)?;
    let journal = name_of_journal2(alloc)?;
    if disk.bytes(&former).is_empty() && disk.bytes(&journal).is_empty() {
        Ok(Some(disk))
    } else {
        Ok(None)
    }
}

/// Opens the store, plays the events with the flushes between them, and closes it. The listed calls of the matcher are
/// refused, counted from 1.
pub fn play(
    alloc: Global,
    disk: MemDisk,
    steps: Steps<'_>,
    refusing: Vec<u64>,
) -> Result<Played, Memory>
    requires { IsCalmDisk disk }
    ensures { IfOk result (λ played. CrashesCalm played.left) }
{
    let procs = no_procs(alloc)?;
    let patterns = ListedPatterns::new(refusing);
    Ok(played_of(run(
        alloc,
        disk,
        AllFormats,
        patterns,
        &procs,
        PLACES,
        steps.events,
        steps.flushes,
    )))
}

/// The disk and the answers of a run, or why the store wasn't opened.
fn played_of(
    ended: Result<Ran<MemDisk, ListedPatterns>, OpenRefused<MemDisk, ListedPatterns>>,
) -> Played
    ensures { result.left ≡ disk_of ended }
{
    match ended {
        Ok(
            Ran {
                disk,
                answers,
                flushes,
                ..
            },
        ) => Played {
            left: disk,
            answers: Ok(answers),
            flushes,
        },
        Err(OpenRefused { disk, fault, .. }) => Played {
            left: disk,
            answers: Err(fault),
            flushes: NO_FLUSHES,
        },
    }
}

/// What the crash of this number leaves.
pub fn crashed(disk: MemDisk, choice: u64) -> Result<MemDisk, Memory>
    requires { CrashesCalm disk }
    ensures { IfOk result IsCalmDisk }
{
    let left = disk.crash(choice)?;
    Ok(left)
}

/// Plays events on the disk of a start, behind these runs with their crashes. Nothing where the start has a journal.
pub fn play_behind(
    alloc: Global,
    start: &Start,
    past: &[Past],
    steps: Steps<'_>,
) -> Result<Option<Played>, Memory> {
    let Some(first) = first_disk(alloc, start, start.stop_after)? else {
        return Ok(None);
    };
    let mut disk = first;
    for run in past {
        let played = play(alloc, disk, run.steps(), start.refusing.clone()?)?;
        disk = crashed(played.left, run.choice)?;
    }
    Ok(Some(play(alloc, disk, steps, start.refusing.clone()?)?))
}

/// No handle has keys of its own.
fn no_procs(alloc: Global) -> Result<Vec<KeySet>, Memory>
    ensures few { IfOk result (λ procs. length procs.items ≡ 4) }
    ensures proc { IfOk result (λ procs. AllByRecursion AreProc procs.items) }
{
    let mut procs = Vec::new(alloc);
    for _ in 0..HANDLES {
        procs.push(KeySet::new(alloc))?;
    }
    Ok(procs)
}
