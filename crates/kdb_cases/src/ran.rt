//! One run of the tool, and how it ended. Of what a run means nothing is said here: that is the contract of `run`.

use crate::notation::push_line;
use kdb_outside::{Disk, Gate, MemSink, MemSource};
use kdb_process::run;
use key_meta::{Memory, Text};
use regex_check::RegexPatterns;
use std::alloc::Global;
use std::sync::Wait;
use std::thread::Threads;

/// What a run reads and writes.
#[derive(Drop)]
pub struct Streams {
    pub input: MemSource,
    pub out: MemSink,
    pub err: MemSink,
}

impl Streams {
    pub fn new(alloc: Global) -> Streams {
        Streams {
            input: MemSource::new(Vec::new(alloc), Vec::new(alloc)),
            out: MemSink::new(alloc, Vec::new(alloc)),
            err: MemSink::new(alloc, Vec::new(alloc)),
        }
    }
}

/// Runs the tool at a gate, and gives its status and the disk.
pub fn run_over<G: Gate + Sync, D: Disk + Send, R: Threads + Wait + Sync>(
    threads: &R,
    alloc: Global,
    gate: &G,
    words: &[Text],
    streams: &mut Streams,
    disk: D,
) -> (u8, D) {
    let (status, disk, _) = run(
        threads,
        alloc,
        words,
        &mut streams.input,
        &mut streams.out,
        &mut streams.err,
        disk,
        RegexPatterns::new(),
        gate,
    );
    (status.code(), disk)
}

/// The status, and the lines of out and err that aren't empty.
pub fn ended(alloc: Global, status: u8, streams: &Streams) -> Result<String, Memory> {
    let (out, err) = (streams.out.bytes(), streams.err.bytes());
    let mut answer = format!(in alloc; "  {status}\n")?;
    if !out.is_empty() {
        push_line(alloc, &mut answer, "out", out)?;
    }
    if !err.is_empty() {
        push_line(alloc, &mut answer, "err", err)?;
    }
    Ok(answer)
}
