//! The run of a single command. What it stores is stored as one commit of an open store, once all else that it tells is
//! made.
ghost use Rattle.tool_single.specs.RunsOne.{RunsOne};

use crate::answers::Ended;
use crate::delivery::finish;
use crate::work::carry_out;
use kdb_outside::{Disk, Sink, Source};
use key_meta::Text;
use regex_check::Patterns;
use std::alloc::Global;
use tool_commands::Status;

/// Carries out the command line of a single command, whose words come without the program's name, and gives the disk
/// and the matcher back.
///
/// The record `RunsOne` tells in words what each of its fields says.
pub fn run_one<S: Source, K: Sink, E: Sink, D: Disk, P: Patterns + Drop>(
    alloc: Global,
    words: &[Text],
    input: &mut S,
    out: &mut K,
    err: &mut E,
    disk: D,
    patterns: P,
) -> (Status, D, P)
    ensures { RunsOne S.Source K.Sink E.Sink D.Disk P.Patterns words.now input.old input.new out.old out.new err.old err.new disk result.1 patterns result.2 result.0 }
{
    let Ended {
        answer,
        disk,
        patterns,
    } = carry_out(alloc, words, input, disk, patterns);
    let status = finish(&answer, out, err);
    (status, disk, patterns)
}
