//! The work of a batch: the words and the input are read, and the script is played.
ghost use Rattle.kdb_tool.specs.Carried.{CarriesOutBatch};

use crate::playing::play_script;
use crate::tasks::{Task, read_task, warn_of_script};
use kdb_outside::{Disk, Gate, Source};
use key_meta::Text;
use regex_check::Patterns;
use std::alloc::Global;
use std::sync::Wait;
use std::thread::Threads;
use tool_single::{Ended, Stop, without_store};

/// Reads the words of a batch and its input, and plays the script.
pub fn carry_out<
    S: Source,
    D: Disk + Send,
    P: Patterns + Drop + Send,
    G: Gate + Sync,
    R: Threads + Wait + Sync,
>(
    rt: &R,
    alloc: Global,
    words: &[Text],
    input: &mut S,
    disk: D,
    patterns: P,
    gate: &G,
) -> Ended<D, P>
    ensures { CarriesOutBatch S.Source D.Disk P.Patterns words.now input.old input.new disk patterns result }
{
    match read_task(alloc, words, input) {
        Ok(Task::Play(script)) => play_script(rt, alloc, gate, &script, disk, patterns),
        Ok(Task::Refuse(why)) => without_store(warn_of_script(alloc, why), disk, patterns),
        Err(stop) => Ended {
            answer: Err(stop),
            disk,
            patterns,
        },
    }
}
