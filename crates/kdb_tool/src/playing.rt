//! A script is played: the store is opened, the sessions take their steps, and it is closed.
ghost use Rattle.kdb_tool.specs.Carried.{PlaysScript};
ghost use Rattle.std.specs.Prelude.{◌≡◌};
ghost use Rattle.batch_run.specs.Played.{IsPlayable};
ghost use Rattle.kdb_tool.specs.Working.{AnswersWith, HasEnded};
ghost use Rattle.tool_single.specs.Serving.{IsOpen};

use crate::reporting::{Names, answer_of, names_of};
use all_formats::AllFormats;
use batch_run::{Played, play_on};
use batch_script::Script;
use kdb_outside::{Disk, Gate};
use regex_check::Patterns;
use std::alloc::Global;
use std::sync::Wait;
use std::thread::Threads;
use store_core::{Closed, Core, OpenRefused, Opened, Plan, open_store};
use tool_single::{Ended, Stop, given_back, refuse_opening};

/// Plays a script on the store of a disk.
pub fn play_script<
    G: Gate + Sync,
    D: Disk + Send,
    P: Patterns + Drop + Send,
    R: Threads + Wait + Sync,
>(rt: &R, alloc: Global, gate: &G, script: &Script, disk: D, patterns: P) -> Ended<D, P>
    requires { IsPlayable script.now }
    ensures { PlaysScript D.Disk P.Patterns script.now disk patterns result }
{
    match open_store(alloc, disk, AllFormats, patterns) {
        Ok(opened) => {
            let Opened { plan, core } = opened;
            play_store(rt, alloc, gate, plan, core, script)
        }
        Err(
            OpenRefused {
                fault,
                disk,
                patterns,
            },
        ) => {
            let disk = given_back(disk);
            Ended {
                answer: refuse_opening(alloc, &fault),
                disk,
                patterns,
            }
        }
    }
}

/// Plays it on a store that was just opened. What the text names is had before: without memory for it no session takes
/// a step.
fn play_store<G: Gate + Sync, D: Disk + Send, P: Patterns + Drop + Send, R: Threads + Wait + Sync>(
    rt: &R,
    alloc: Global,
    gate: &G,
    plan: Plan<AllFormats>,
    core: Core<D, P>,
    script: &Script,
) -> Ended<D, P>
    requires script { IsPlayable script.now }
    requires open { IsOpen plan core }
    ensures { HasEnded D.Disk P.refusals plan.mounted script.now core result }
{
    match names_of(alloc, &plan, script) {
        Ok(names) => {
            let played = play_on(rt, alloc, gate, plan, core, script);
            end_played(alloc, &names, script, played)
        }
        Err(_) => {
            let Closed { disk, patterns, .. } = core.close();
            Ended {
                answer: Err(Stop::Memory),
                disk: given_back(disk),
                patterns,
            }
        }
    }
}

/// What is told of a batch that was played.
fn end_played<D: Disk, P: Patterns + Drop>(
    alloc: Global,
    names: &Names,
    script: &Script,
    played: Played<D, P>,
) -> Ended<D, P>
    ensures disk { result.disk ≡ played.closed.disk }
    ensures patterns { result.patterns ≡ played.closed.patterns }
    ensures told { AnswersWith names.now.mounts names.now.sessions.items script.now played.closed.history.commits played.transcripts result.answer }
{
    let Played {
        closed,
        transcripts,
    } = played;
    let answer = answer_of(alloc, names, script, transcripts, &closed.history);
    let Closed { disk, patterns, .. } = closed;
    Ended {
        answer,
        disk: given_back(disk),
        patterns,
    }
}
