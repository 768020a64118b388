//! The work of a generated run: its script is played on a disk of its own, and what its history came to is told.
ghost use Rattle.std.specs.Prelude.{◌≡◌, ◌≤◌, true, [], None, IfOk};
ghost use Rattle.all_formats.specs.Meanings as all;
ghost use Rattle.disk_memory.specs.DiskState.{begun};
ghost use Rattle.kdb_gen.specs.Generated.{gen_script};
ghost use Rattle.kdb_tool.specs.Generated.{ComesTo, PlaysRounds, no_files};
ghost use Rattle.kdb_tool.specs.Generating.{ArePlayable, ComesOut, TellsGenerated, TellsIf};
ghost use Rattle.kdb_tool.specs.Rounds.{rounds_in};
ghost use Rattle.mounted_files.specs.Opening.{IsOpened};
ghost use Rattle.tool_commands.specs.Report.{IsAnswered};
ghost use Rattle.tool_single.specs.Serving.{IsOpen};

use crate::rounds::{Wanted, read_rounds};
use crate::tallying::tally_in;
use all_formats::AllFormats;
use batch_run::{Played, play_on};
use batch_script::Script;
use commit_log::History;
use disk_memory::MemDisk;
use kdb_gen::{Tally, a_generated_script_can_be_played, gen_script, summary, tally_of};
use kdb_handle::Transcripts;
use kdb_outside::{Disk, Gate};
use kdb_print::status_of;
use key_meta::{Memory, Text};
use regex_check::Patterns;
use std::alloc::Global;
use std::sync::Wait;
use std::thread::Threads;
use store_core::{Closed, Core, OpenRefused, Opened, Plan, open_store};
use tool_commands::{Report, tell};
use tool_single::Stop;

/// What is told, or why nothing is, and the matcher that was handed in.
#[derive(Drop)]
pub struct Generated<P> {
    pub answer: Result<Report, Stop>,
    pub patterns: P,
}

/// Reads the words of a generated run, and plays its script.
pub fn generate<P: Patterns + Drop + Send, G: Gate + Sync, R: Threads + Wait + Sync>(
    rt: &R,
    alloc: Global,
    words: &[Text],
    patterns: P,
    gate: &G,
) -> Generated<P>
    ensures told { TellsGenerated (rounds_in words.now) result.answer }
    ensures own { IfOk result.answer (λ report. IsAnswered report.status) }
    ensures later { P.refusals patterns ≤ P.refusals result.patterns }
{
    match read_rounds(alloc, words) {
        Ok(Wanted::Play(rounds)) => play_rounds(rt, alloc, gate, rounds, patterns),
        Ok(Wanted::Refuse(report)) => Generated {
            answer: Ok(report),
            patterns,
        },
        Err(_) => Generated {
            answer: Err(Stop::Memory),
            patterns,
        },
    }
}

/// Plays the script of so many rounds on a disk in memory that has no files.
fn play_rounds<G: Gate + Sync, P: Patterns + Drop + Send, R: Threads + Wait + Sync>(
    rt: &R,
    alloc: Global,
    gate: &G,
    rounds: u32,
    patterns: P,
) -> Generated<P>
    requires { ArePlayable rounds }
    ensures told { TellsIf rounds (PlaysRounds rounds) result.answer }
    ensures own { IfOk result.answer (λ report. IsAnswered report.status) }
    ensures later { P.refusals patterns ≤ P.refusals result.patterns }
{
    match make_ready(alloc, rounds) {
        Ok((script, disk)) => play_on_disk(rt, alloc, gate, rounds, &script, disk, patterns),
        Err(_) => Generated {
            answer: Err(Stop::Memory),
            patterns,
        },
    }
}

/// The script, and the disk that it is played on.
fn make_ready(alloc: Global, rounds: u32) -> Result<(Script, MemDisk), Memory>
    requires { ArePlayable rounds }
    ensures script { IfOk result (λ made. made.0 ≡ gen_script rounds) }
    ensures disk { IfOk result (λ made. made.1 ≡ begun [] [] None) }
{
    let script = gen_script(alloc, rounds)?;
    let disk = MemDisk::new(alloc, Vec::new(alloc), Vec::new(alloc), None)?;
    Ok((script, disk))
}

/// Plays the script of so many rounds on a disk, and tells what came of it.
fn play_on_disk<
    G: Gate + Sync,
    D: Disk + Drop + Send,
    P: Patterns + Drop + Send,
    R: Threads + Wait + Sync,
>(
    rt: &R,
    alloc: Global,
    gate: &G,
    rounds: u32,
    script: &Script,
    disk: D,
    patterns: P,
) -> Generated<P>
    requires rounds { ArePlayable rounds }
    requires script { script.now ≡ gen_script rounds }
    ensures told { D.tells disk ≡ true → D.seen disk ≡ no_files → TellsIf rounds (PlaysRounds rounds) result.answer }
    ensures own { IfOk result.answer (λ report. IsAnswered report.status) }
    ensures later { P.refusals patterns ≤ P.refusals result.patterns }
{
    match open_store(alloc, disk, AllFormats, patterns) {
        Ok(opened) => {
            let Opened { plan, core } = opened;
            play_on_store(rt, alloc, gate, rounds, script, plan, core)
        }
        // nothing is wrong with files that aren't there: it is memory that was wanting
        Err(OpenRefused { patterns, .. }) => Generated {
            answer: Err(Stop::Memory),
            patterns,
        },
    }
}

/// Plays it on a store that was just opened.
fn play_on_store<
    G: Gate + Sync,
    D: Disk + Drop + Send,
    P: Patterns + Drop + Send,
    R: Threads + Wait + Sync,
>(
    rt: &R,
    alloc: Global,
    gate: &G,
    rounds: u32,
    script: &Script,
    plan: Plan<AllFormats>,
    core: Core<D, P>,
) -> Generated<P>
    requires rounds { ArePlayable rounds }
    requires script { script.now ≡ gen_script rounds }
    requires open { IsOpen plan core }
    ensures told { IsOpened all.Reads all.IsBadAt no_files plan.mounted
        → TellsIf rounds (PlaysRounds rounds) result.answer }
    ensures own { IfOk result.answer (λ report. IsAnswered report.status) }
    ensures later { P.refusals core.patterns ≤ P.refusals result.patterns }
{
    a_generated_script_can_be_played();
    let played = play_on(rt, alloc, gate, plan, core, script);
    end_rounds(alloc, rounds, played)
}

/// What is told of a script that was played.
fn end_rounds<D: Disk + Drop, P: Patterns + Drop>(
    alloc: Global,
    rounds: u32,
    played: Played<D, P>,
) -> Generated<P>
    requires { ArePlayable rounds }
    ensures told { TellsIf rounds (ComesOut rounds played.transcripts played.closed.history.commits) result.answer }
    ensures own { IfOk result.answer (λ report. IsAnswered report.status) }
    ensures patterns { result.patterns ≡ played.closed.patterns }
{
    let Played {
        closed,
        transcripts,
    } = played;
    let answer = sum_up(alloc, rounds, &transcripts, &closed.history);
    let Closed { patterns, .. } = closed;
    Generated { answer, patterns }
}

/// The summary of a run whose replies are well and whose history comes to what so many rounds do. Any other run ends as
/// for want of memory: that there is none where memory suffices isn't proved.
fn sum_up(
    alloc: Global,
    rounds: u32,
    transcripts: &Option<Transcripts>,
    history: &History,
) -> Result<Report, Stop>
    requires { ArePlayable rounds }
    ensures told { TellsIf rounds (ComesOut rounds transcripts.now history.now.commits) result }
    ensures own { IfOk result (λ report. IsAnswered report.status) }
{
    let Some(transcripts) = transcripts else {
        return Err(Stop::Memory);
    };
    if status_of(transcripts) != 0 {
        return Err(Stop::Memory);
    }
    let expected = tally_of(rounds);
    if !comes_to(alloc, history, &expected)? {
        return Err(Stop::Memory);
    }
    Ok(tell(alloc, summary(alloc, rounds, &expected)?))
}

/// Whether a history comes to a tally.
fn comes_to(alloc: Global, history: &History, expected: &Tally) -> Result<bool, Memory>
    ensures { IfOk result (λ comes. comes ≡ true → ComesTo history.now.commits expected.now) }
{
    match tally_in(alloc, history)? {
        Some(tally) => Ok(tally.same(expected)),
        None => Ok(false),
    }
}
