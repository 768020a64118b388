//! A run that the disk stops behind each of its calls in turn, or of which each call fails alone, with a crash of each
//! of ten numbers behind it: what the next run finds.

use crate::ran::{Streams, run_over};
use crate::starts::Start;
use disk_memory::MemDisk;
use kdb_outside::OpenGate;
use key_meta::{Memory, Text};
use std::alloc::Global;
use std::sync::Wait;
use std::thread::Threads;

/// How many crashes are tried behind each stop.
const CRASHES: u64 = 10;
/// No run of a case makes as many calls.
const MOST_CALLS: u64 = 100;

/// What came of the runs with one stop or failing call: their status, and whether the files were old, new or anything
/// else behind some crash.
#[derive(Clone, Copy, PartialEq, Eq)]
struct Found {
    status: u8,
    old: bool,
    new: bool,
    other: bool,
}

/// A run that is tried over and over, what its files hold before it and behind it, and whether a call fails alone there
/// or all behind so many.
#[derive(Drop)]
struct Trial<'a> {
    start: &'a Start,
    words: &'a [Text],
    alone: bool,
    old: Vec<u8>,
    new: Vec<u8>,
}

/// A row for each range of stops of which the same came, up to the first that stops nothing; or of calls that fail
/// alone, from the first to the last of the run.
pub fn rows_of<R: Threads + Wait + Sync>(
    threads: &R,
    alloc: Global,
    start: &Start,
    words: &[Text],
    alone: bool,
) -> Result<String, Memory> {
    let whole = start.copy_disk(None, None)?;
    let old = start.bytes_of(&whole)?;
    let (_, whole) = run_alone(threads, alloc, words, whole);
    let calls = whole.calls();
    let new = start.bytes_of(&whole)?;
    let trial = Trial {
        start,
        words,
        alone,
        old,
        new,
    };
    let mut rows = String::new(alloc);
    let mut from = if alone { 1 } else { 0 };
    let mut last = found_at(threads, alloc, &trial, from)?;
    for number in from.saturating_add(1)..MOST_CALLS {
        let found = found_at(threads, alloc, &trial, number)?;
        if found != last {
            push_row(alloc, &mut rows, from, number.saturating_sub(1), last)?;
            from = number;
            last = found;
        }
        if number >= calls {
            push_row(alloc, &mut rows, from, number, last)?;
            break;
        }
    }
    Ok(rows)
}

/// What came of the runs that are stopped behind so many calls, or whose call of this number fails, with each crash
/// behind them. A disk that isn't stopped is left without a crash, too.
fn found_at<R: Threads + Wait + Sync>(
    threads: &R,
    alloc: Global,
    trial: &Trial<'_>,
    number: u64,
) -> Result<Found, Memory> {
    let mut found = Found {
        status: 0,
        old: false,
        new: false,
        other: false,
    };
    let (stop, failing, most) = if trial.alone {
        (None, Some(number), CRASHES + 1)
    } else {
        (Some(number), None, CRASHES)
    };
    for choice in 0..most {
        let disk = trial.start.copy_disk(stop, failing)?;
        let (status, disk) = run_alone(threads, alloc, trial.words, disk);
        let disk = if choice < CRASHES {
            disk.crash(choice)?
        } else {
            disk
        };
        found.status = status;
        look_at(threads, alloc, trial, disk, &mut found)?;
    }
    Ok(found)
}

/// Opens a disk that was left, and looks whether its files are old or new. They aren't to be old where that is told as
/// stored.
fn look_at<R: Threads + Wait + Sync>(
    threads: &R,
    alloc: Global,
    trial: &Trial<'_>,
    left: MemDisk,
    found: &mut Found,
) -> Result<(), Memory> {
    let next = vec![in alloc; Text::new(alloc, "mounts")?]?;
    let (_, disk) = run_alone(threads, alloc, &next, left);
    let bytes = trial.start.bytes_of(&disk)?;
    let is_new = bytes.as_slice() == trial.new.as_slice();
    if bytes.as_slice() == trial.old.as_slice() && (found.status != 0 || is_new) {
        found.old = true;
    } else if is_new {
        found.new = true;
    } else {
        found.other = true;
    }
    Ok(())
}

/// Runs the tool without an input, and leaves what it tells.
fn run_alone<R: Threads + Wait + Sync>(
    threads: &R,
    alloc: Global,
    words: &[Text],
    disk: MemDisk,
) -> (u8, MemDisk) {
    run_over(
        threads,
        alloc,
        &OpenGate,
        words,
        &mut Streams::new(alloc),
        disk,
    )
}

fn push_row(
    alloc: Global,
    rows: &mut String,
    from: u64,
    to: u64,
    found: Found,
) -> Result<(), Memory> {
    let files = match (found.old, found.new, found.other) {
        (true, false, false) => "old",
        (false, true, false) => "new",
        (true, true, false) => "old or new",
        _ => "something else",
    };
    let status = found.status;
    rows.push_str(&format!(in alloc; "  {from} to {to}: {status} {files}\n")?)
}
