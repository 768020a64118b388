//! Reads files of cases, and prints each line of them with what came of it.
#![tactic(auto)]

mod bodies;
mod calls;
mod cases;
mod folders;
mod formats;
mod gates;
mod merges;
mod names;
mod notation;
mod ran;
mod reals;
mod runs;
mod sets;
mod starts;
mod stops;
mod streams;
mod tables;
mod texts;

use cases::Cases;
use std::sync::Wait;
use std::thread::Threads;
use std::{env, fs, io};

fn main(rt: HostRuntime) -> io::Result<()> {
    for path in env::args(&rt)?.skip(1) {
        tell_cases(rt, &rt, path.as_str())?;
    }
    Ok(())
}

/// Prints each line of a file with what came of it.
fn tell_cases<R: Threads + Wait + Sync>(
    rt: HostRuntime,
    threads: &R,
    path: &str,
) -> io::Result<()> {
    let text = fs::read_to_string(&rt, path)?;
    let mut cases = Cases::new(rt);
    for line in text.lines() {
        let answer = cases.answer_to(threads, line)?;
        print!(rt; "{line}\n{answer}")?;
    }
    Ok(())
}
