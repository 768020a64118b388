//! Events that are played anew for each front of them that ends with a commit, with a crash behind each.
ghost use Rattle.store_cases.specs.Disks.{CrashesCalm};

use crate::answers::lines_of;
use crate::showing::push_bytes;
use crate::starts::Start;
use crate::steps::Steps;
use crate::stores::{Played, crashed, first_disk, play};
use disk_memory::MemDisk;
use kdb_outside::FileName;
use key_meta::Memory;
use std::alloc::Global;
use store_play::Event;

/// The files that are looked at.
const FILES: [&str; 6] = [
    "spec.ecf",
    "dir.ecf",
    "user.ecf",
    "sw.ecf",
    "system.ecf",
    "elektra.ecf",
];

/// What is told so far: how many answers, and what each file held last.
#[derive(Drop)]
struct Told {
    answers: usize,
    texts: Vec<Vec<u8>>,
    lines: String,
}

/// A line for each answer, and behind that of a commit and the last one a line for each file that isn't as it was told
/// last, once a crash was behind the run and the store was opened again. Where no call of the disk is to fail, a file
/// that the close left otherwise is told, too.
pub fn fronts_of(
    alloc: Global,
    start: &Start,
    steps: Steps<'_>,
    choice: u64,
) -> Result<String, Memory> {
    let mut told = Told {
        answers: 0,
        texts: texts_at_first(alloc, start)?,
        lines: String::new(alloc),
    };
    for count in 1..=steps.events.len() {
        let front = steps.front(count);
        if is_told(front.events, steps.events.len()) {
            tell(alloc, &mut told, start, front, choice)?;
        }
    }
    Ok(told.lines)
}

/// The front ends with a commit, or is all events.
fn is_told(front: &[Event], all: usize) -> bool {
    match front.last() {
        Some(Event::Commit { .. }) => true,
        _ => front.len() == all,
    }
}

/// Plays a front, and tells what comes of it beside what is told already.
fn tell(
    alloc: Global,
    told: &mut Told,
    start: &Start,
    front: Steps<'_>,
    choice: u64,
) -> Result<(), Memory> {
    let Some(disk) = first_disk(alloc, start, start.stop_after)? else {
        return told.lines.push_str("  no disk\n");
    };
    let Played { left, answers, .. } = play(alloc, disk, front, start.refusing.clone()?)?;
    let lines = lines_of(alloc, &answers)?;
    for line in lines.lines().skip(told.answers) {
        told.lines.push_str(line)?;
        told.lines.push_str("\n")?;
        told.answers = told.answers.saturating_add(1);
    }
    tell_files(alloc, told, left, start.failing.is_empty(), choice)
}

/// Tells what the files hold behind a crash and an opening.
fn tell_files(
    alloc: Global,
    told: &mut Told,
    left: MemDisk,
    is_faultless: bool,
    choice: u64,
) -> Result<(), Memory>
    requires { CrashesCalm left }
{
    let closed = texts_of(alloc, &left)?;
    let disk = crashed(left, choice)?;
    let opened = play(alloc, disk, Steps::none(), Vec::new(alloc))?.left;
    let texts = texts_of(alloc, &opened)?;
    push_changed(alloc, &mut told.lines, "  ", &told.texts, &texts)?;
    if is_faultless {
        push_changed(alloc, &mut told.lines, "  closed with ", &texts, &closed)?;
    }
    told.texts = texts;
    Ok(())
}

/// A line for each file that holds something else now, behind this beginning.
fn push_changed(
    alloc: Global,
    lines: &mut String,
    beginning: &str,
    before: &[Vec<u8>],
    now: &[Vec<u8>],
) -> Result<(), Memory> {
    for (place, file) in FILES.iter().enumerate() {
        if let (Some(before), Some(now)) = (before.get(place), now.get(place)) {
            if before.as_slice() != now.as_slice() {
                push_file(alloc, lines, beginning, *file, now)?;
            }
        }
    }
    Ok(())
}

/// A line for a file, behind this beginning.
fn push_file(
    alloc: Global,
    lines: &mut String,
    beginning: &str,
    file: &str,
    bytes: &[u8],
) -> Result<(), Memory> {
    lines.push_str(beginning)?;
    lines.push_str(file)?;
    lines.push_str(" ")?;
    push_bytes(alloc, lines, bytes)?;
    lines.push_str("\n")
}

fn texts_at_first(alloc: Global, start: &Start) -> Result<Vec<Vec<u8>>, Memory> {
    match first_disk(alloc, start, start.stop_after)? {
        Some(disk) => texts_of(
            alloc,
            &play(alloc, disk, Steps::none(), Vec::new(alloc))?.left,
        ),
        None => Ok(Vec::new(alloc)),
    }
}

/// What each file holds.
fn texts_of(alloc: Global, left: &MemDisk) -> Result<Vec<Vec<u8>>, Memory> {
    let mut texts = Vec::new(alloc);
    for file in FILES {
        let Some(name) = FileName::new(alloc, file)? else {
            return Ok(texts);
        };
        texts.push(left.bytes(&name).to_vec(alloc)?)?;
    }
    Ok(texts)
}
