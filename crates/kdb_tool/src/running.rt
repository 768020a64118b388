//! The runs of a batch and of a generated script.
ghost use Rattle.kdb_tool.specs.RunsBatch.{RunsBatch};
ghost use Rattle.kdb_tool.specs.RunsGenerated.{RunsGenerated};

use crate::generating::{Generated, generate};
use crate::work::carry_out;
use kdb_outside::{Disk, Gate, Sink, Source};
use key_meta::Text;
use regex_check::Patterns;
use std::alloc::Global;
use std::sync::Wait;
use std::thread::Threads;
use tool_commands::Status;
use tool_single::{Ended, finish};

/// Carries out the command line of a batch, whose words come without the program's name: the first is `batch`. Gives
/// the disk and the matcher back.
pub fn run_batch<
    S: Source,
    K: Sink,
    E: Sink,
    D: Disk + Send,
    P: Patterns + Drop + Send,
    G: Gate + Sync,
    R: Threads + Wait + Sync,
>(
    rt: &R,
    alloc: Global,
    words: &[Text],
    input: &mut S,
    out: &mut K,
    err: &mut E,
    disk: D,
    patterns: P,
    gate: &G,
) -> (Status, D, P)
    ensures { RunsBatch S.Source K.Sink E.Sink D.Disk P.Patterns words.now input.old input.new out.old out.new err.old err.new disk result.1 patterns result.2 result.0 }
{
    let Ended {
        answer,
        disk,
        patterns,
    } = carry_out(rt, alloc, words, input, disk, patterns, gate);
    let status = finish(&answer, out, err);
    (status, disk, patterns)
}

/// Carries out the command line of a generated run, whose words come without the program's name: the first is `gen`. It
/// takes no disk and no input. Gives the matcher back.
pub fn run_gen<
    K: Sink,
    E: Sink,
    P: Patterns + Drop + Send,
    G: Gate + Sync,
    R: Threads + Wait + Sync,
>(
    rt: &R,
    alloc: Global,
    words: &[Text],
    out: &mut K,
    err: &mut E,
    patterns: P,
    gate: &G,
) -> (Status, P)
    ensures { RunsGenerated K.Sink E.Sink P.Patterns words.now out.old out.new err.old err.new patterns result.1 result.0 }
{
    let Generated { answer, patterns } = generate(rt, alloc, words, patterns, gate);
    let status = finish(&answer, out, err);
    (status, patterns)
}
