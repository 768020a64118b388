//! A run of several commits that is stopped after so many calls of the disk, or of which one call fails: how many of
//! the commits were told, and how many the files have once the store was opened again.

use crate::left::files_behind;
use crate::starts::Start;
use crate::steps::Steps;
use crate::stores::{first_disk, play};
use key_meta::{List, Memory};
use std::alloc::Global;
use store_play::{Answer, Event};

/// How many crashes are tried behind each run.
const CHOICES: u64 = 10;

/// What came of the crashes behind one run: how many of the commits were answered as stored, and behind how many of
/// them the files are as they are then, at least and at most. No number where a crash isn't allowed to leave them so.
#[derive(Clone, Copy, PartialEq, Eq)]
struct Found {
    told: Option<Told>,
    least: Option<usize>,
    most: Option<usize>,
}

/// How many of some commits were answered as stored, and which of them is the last of these, by its number from 1.
#[derive(Clone, Copy, PartialEq, Eq)]
struct Told {
    count: usize,
    last: usize,
}

/// A row for each range of numbers of calls, from the first to the last, of which the same came: where just so many go
/// through.
pub fn stopped_commits(
    alloc: Global,
    start: &mut Start,
    steps: Steps<'_>,
    range: (u64, u64),
) -> Result<String, Memory> {
    let ends = ends_of(alloc, start, steps)?;
    let mut rows = Rows::new(alloc);
    for stop in range.0..=range.1 {
        start.stop_after = Some(stop);
        rows.add(alloc, stop, found_of(alloc, start, steps, &ends)?)?;
    }
    rows.ended(alloc, range.1)
}

/// The same where just the call of a number fails.
pub fn failed_commits(
    alloc: Global,
    start: &mut Start,
    steps: Steps<'_>,
    range: (u64, u64),
) -> Result<String, Memory> {
    let ends = ends_of(alloc, start, steps)?;
    let mut rows = Rows::new(alloc);
    for call in range.0..=range.1 {
        start.failing = vec![in alloc; call]?;
        rows.add(alloc, call, found_of(alloc, start, steps, &ends)?)?;
    }
    rows.ended(alloc, range.1)
}

/// What the files hold before the first commit, and behind each of them, where each call goes through.
fn ends_of(alloc: Global, start: &Start, steps: Steps<'_>) -> Result<Vec<Vec<u8>>, Memory> {
    let mut ends = vec![in alloc; files_behind(alloc, start, Steps::none(), 1)?]?;
    for count in 1..=steps.events.len() {
        let front = steps.front(count);
        if let Some(Event::Commit { .. }) = front.events.last() {
            ends.push(files_behind(alloc, start, front, 1)?)?;
        }
    }
    Ok(ends)
}

fn found_of(
    alloc: Global,
    start: &Start,
    steps: Steps<'_>,
    ends: &[Vec<u8>],
) -> Result<Found, Memory> {
    let told = told_in(alloc, start, steps)?;
    let first = place_of(&files_behind(alloc, start, steps, 0)?, ends, told);
    let mut found = Found {
        told,
        least: first,
        most: first,
    };
    for choice in 1..CHOICES {
        let place = place_of(&files_behind(alloc, start, steps, choice)?, ends, told);
        // No number is the least of all, so that it stays.
        found.least = found.least.min(place);
        found.most = found.most.max(place);
    }
    Ok(found)
}

/// Which commits were answered as stored, unless the store wasn't opened.
fn told_in(alloc: Global, start: &Start, steps: Steps<'_>) -> Result<Option<Told>, Memory> {
    Ok(match answers_of(alloc, start, steps)? {
        Some(answers) => Some(told_of(answers.as_slice())),
        None => None,
    })
}

/// What each event is answered, unless the store isn't opened.
fn answers_of(
    alloc: Global,
    start: &Start,
    steps: Steps<'_>,
) -> Result<Option<List<Answer>>, Memory> {
    let Some(disk) = first_disk(alloc, start, start.stop_after)? else {
        return Ok(None);
    };
    Ok(
        play(alloc, disk, steps, start.refusing.clone()?)?
            .answers
            .ok(),
    )
}

/// Which commits are answered as stored.
fn told_of(answers: &[Answer]) -> Told {
    let mut told = Told { count: 0, last: 0 };
    let mut number = 0usize;
    for answer in answers {
        if let Answer::Committed(outcome) = answer {
            number = number.saturating_add(1);
            if outcome.is_ok() {
                told.count = told.count.saturating_add(1);
                told.last = number;
            }
        }
    }
    told
}

/// Behind how many commits the files are as these, where a crash is allowed to leave them so: they have all up to the
/// last that was told, and at most the next one more, which was begun; and none where the store wasn't opened.
fn place_of(files: &Vec<u8>, ends: &[Vec<u8>], told: Option<Told>) -> Option<usize> {
    let (least, most) = match told {
        Some(told) => (told.last, told.last.saturating_add(1)),
        None => (0, 0),
    };
    for (place, end) in ends.iter().enumerate() {
        if least <= place && place <= most && files.as_slice() == end.as_slice() {
            return Some(place);
        }
    }
    None
}

/// Rows of what was found, of which the last one goes on as long as the same is found.
#[derive(Drop)]
struct Rows {
    text: String,
    last: Option<(u64, Found)>,
}

impl Rows {
    fn new(alloc: Global) -> Rows {
        Rows {
            text: String::new(alloc),
            last: None,
        }
    }

    /// Adds what was found at a number.
    fn add(&mut self, alloc: Global, number: u64, found: Found) -> Result<(), Memory> {
        let before = self.last;
        match before {
            Some((_, last)) if last == found => Ok(()),
            Some((from, last)) => {
                self.last = Some((number, found));
                push_row(alloc, &mut self.text, from, number.saturating_sub(1), last)
            }
            None => {
                self.last = Some((number, found));
                Ok(())
            }
        }
    }

    /// The rows, of which the last one ends at a number.
    fn ended(self, alloc: Global, number: u64) -> Result<String, Memory> {
        let Rows { mut text, last } = self;
        if let Some((from, last)) = last {
            push_row(alloc, &mut text, from, number, last)?;
        }
        Ok(text)
    }
}

fn push_row(
    alloc: Global,
    text: &mut String,
    from: u64,
    to: u64,
    found: Found,
) -> Result<(), Memory> {
    text.push_str(format!(in alloc; "  {from} to {to}: ")?.as_str())?;
    match found.told {
        Some(Told { count, .. }) => {
            text.push_str(format!(in alloc; "{count} told, ")?.as_str())?;
        }
        None => text.push_str("not opened, ")?,
    }
    match (found.least, found.most) {
        (Some(least), Some(most)) if least == most => {
            text.push_str(format!(in alloc; "{least} stored\n")?.as_str())
        }
        (Some(least), Some(most)) => {
            text.push_str(format!(in alloc; "{least} to {most} stored\n")?.as_str())
        }
        _ => text.push_str("not allowed\n"),
    }
}
