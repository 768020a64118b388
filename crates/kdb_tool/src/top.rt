//! The run of a command line: a batch or a generated run by its first word, or else a single command.
ghost use Rattle.std.specs.Prelude.{◌≡◌, true, false};
ghost use Rattle.kdb_tool.specs.Rounds.{is_gen};
ghost use Rattle.kdb_tool.specs.RunsBatch.{RunsBatch};
ghost use Rattle.kdb_tool.specs.RunsGenerated.{RunsGenerated};
ghost use Rattle.kdb_tool.specs.Scripts.{is_batch};
ghost use Rattle.tool_single.specs.RunsOne.{RunsOne};

use crate::running::{run_batch, run_gen};
use kdb_outside::{Disk, Gate, Sink, Source};
use key_meta::Text;
use regex_check::Patterns;
use std::alloc::Global;
use std::sync::Wait;
use std::thread::Threads;
use tool_commands::Status;
use tool_single::run_one;

/// Carries out a command line, whose words come without the program's name, and gives the disk and the matcher back.
/// Each step of a session of a batch or of a generated run passes the gate; threads are started and wait for each other
/// in these alone. A generated run has a disk of its own.
pub fn run<
    S: Source,
    K: Sink,
    E: Sink,
    D: Disk + Send,
    P: Patterns + Drop + Send,
    G: Gate + Sync,
    R: Threads + Wait + Sync,
>(
    rt: &R,
    alloc: Global,
    words: &[Text],
    input: &mut S,
    out: &mut K,
    err: &mut E,
    disk: D,
    patterns: P,
    gate: &G,
) -> (Status, D, P)
    ensures single { is_batch words.now ≡ false → is_gen words.now ≡ false
        → RunsOne S.Source K.Sink E.Sink D.Disk P.Patterns words.now input.old input.new out.old out.new err.old err.new disk result.1 patterns result.2 result.0 }
    ensures batch { is_batch words.now ≡ true
        → RunsBatch S.Source K.Sink E.Sink D.Disk P.Patterns words.now input.old input.new out.old out.new err.old err.new disk result.1 patterns result.2 result.0 }
    ensures generated { is_gen words.now ≡ true
        → RunsGenerated K.Sink E.Sink P.Patterns words.now out.old out.new err.old err.new patterns result.2 result.0 }
    ensures untouched { is_gen words.now ≡ true → (input.new ≡ input.old) × (result.1 ≡ disk) }
{
    if is_batch(words) {
        return run_batch(rt, alloc, words, input, out, err, disk, patterns, gate);
    }
    if is_gen(words) {
        let (status, patterns) = run_gen(rt, alloc, words, out, err, patterns, gate);
        return (status, disk, patterns);
    }
    run_one(alloc, words, input, out, err, disk, patterns)
}

/// Whether a command line is a batch's.
fn is_batch(words: &[Text]) -> bool
    ensures { result ≡ is_batch words.now }
{
    match words.first() {
        Some(command) => command.as_str() == "batch",
        None => false,
    }
}

/// Whether a command line is one of a generated run.
fn is_gen(words: &[Text]) -> bool
    ensures { result ≡ is_gen words.now }
{
    match words.first() {
        Some(command) => command.as_str() == "gen",
        None => false,
    }
}
