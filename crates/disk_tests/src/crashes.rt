//! Two entries on their way through a journal, stopped behind each call and crashed; and how many entries and bytes
//! have room.

use crate::entries::{Held, MADE, SECOND, disk_of, have, is_added, is_begun};
use crate::steps::is_stored;
use disk_memory::MemDisk;
use intent_journal::Journal;
use std::alloc::Global;
use std::test::Fail;

/// Before the entries: contents of the length of theirs, a longer one and none, and journals that are too short.
const ROWS: [Held<'static>; 3] = [
    (b"0", b"0", b"", b""),
    (b"a much longer content", b"", b"\x00", b""),
    (b"", b"another one", b"", b"\x00\x00"),
];

/// The disk once both entries were stored on it as far as it let them.
fn stored_on(alloc: Global, disk: MemDisk) -> Result<MemDisk, Fail> {
    match Journal::open(alloc, disk) {
        Ok(journal) => stored_by(alloc, journal),
        Err(refused) => Ok(refused.disk),
    }
}

fn stored_by(alloc: Global, journal: Journal<MemDisk>) -> Result<MemDisk, Fail> {
    let mut journal = journal;
    let _ = is_stored(alloc, &mut journal, false)?;
    Ok(journal.into_disk())
}

/// A disk once it was opened and closed again.
fn reopened(alloc: Global, disk: MemDisk) -> Result<MemDisk, Fail> {
    match Journal::open(alloc, disk) {
        Ok(journal) => Ok(journal.into_disk()),
        Err(_) => Err("a crashed disk opens")?,
    }
}

/// How many of both entries the files have of a disk that held this before: 3 where they have none of these.
fn left_on(alloc: Global, held: &Held<'_>, disk: &MemDisk) -> Result<u64, Fail> {
    let (first, second, _, _) = held;
    Ok(if have(alloc, disk, first, second)? {
        0
    } else if have(alloc, disk, b"1", b"1")? {
        1
    } else if have(alloc, disk, b"1", b"2")? {
        2
    } else {
        3
    })
}

/// Two calls open; two settle; four put the head; two each put a body and open its gate, so that the twelfth and the
/// sixteenth sync a gate: a crash right before one leaves the entry or not.
fn fits(stop_after: u64, left: u64) -> bool {
    match left {
        0 => stop_after <= 11,
        1 => (11..=15).contains(&stop_after),
        2 => 15 <= stop_after,
        _ => false,
    }
}

/// Whether a crash behind so many calls leaves no entry or whole ones in their order, and what was stored.
fn stop_fits(alloc: Global, held: &Held<'_>, stop_after: u64, choice: u64) -> Result<bool, Fail> {
    let disk = stored_on(alloc, disk_of(alloc, held, stop_after)?)?;
    let disk = reopened(alloc, disk.crash(choice)?)?;
    Ok(fits(stop_after, left_on(alloc, held, &disk)?))
}

/// Whether each stop up to so many calls fits, by so many choices. A count is a parameter, since a loop to a number
/// that stands in its function is proved turn by turn.
fn every_stop_fits(alloc: Global, held: &Held<'_>, calls: u64, choices: u64) -> Result<bool, Fail> {
    for stop_after in 0..=calls {
        for choice in 0..choices {
            if !stop_fits(alloc, held, stop_after, choice)? {
                return Ok(false);
            }
        }
    }
    Ok(true)
}

/// Whether both entries are stored on a disk that doesn't stop, by so many calls.
fn is_stored_whole(alloc: Global, held: &Held<'_>, calls: u64) -> Result<bool, Fail> {
    let disk = stored_on(alloc, disk_of(alloc, held, u64::MAX)?)?;
    Ok(disk.calls() == calls && left_on(alloc, held, &disk)? == 2)
}

/// The place of the first disk that doesn't take both entries by so many calls, or has something else behind a stop.
fn first_unfit(alloc: Global, rows: &[Held<'_>], calls: u64) -> Result<Option<usize>, Fail> {
    for (place, held) in rows.iter().enumerate() {
        if !every_stop_fits(alloc, held, calls, 10)?
            || !is_stored_whole(alloc, held, MADE.saturating_add(calls))?
        {
            return Ok(Some(place));
        }
    }
    Ok(None)
}

#[test]
fn leaves_no_entry_or_whole_ones_in_their_order(rt: HostRuntime) -> Result<(), Fail> {
    assert_eq!(rt; first_unfit(rt.alloc(), &ROWS, 24)?, None);
    Ok(())
}

/// Whether so many bytes fit on a journal once so many entries were added.
fn fits_behind(
    alloc: Global,
    journal: &mut Journal<MemDisk>,
    entries: usize,
    body: usize,
) -> Result<bool, Fail> {
    for _ in 0..entries {
        if !is_begun(alloc, journal)? || !is_added(alloc, journal, SECOND)? {
            return Err("it fits")?;
        }
    }
    Ok(journal.fits(body))
}

/// The same on an empty disk.
fn fits_on(alloc: Global, entries: usize, body: usize) -> Result<bool, Fail> {
    let disk = MemDisk::new(alloc, Vec::new(alloc), Vec::new(alloc), None)?;
    let Ok(mut journal) = Journal::open(alloc, disk) else {
        return Err("it opens")?;
    };
    fits_behind(alloc, &mut journal, entries, body)
}

/// The first of some rows that isn't so: how many entries were added, how long the next one's body is, and whether it
/// fits.
fn first_misfit(
    alloc: Global,
    rows: &[(usize, usize, bool)],
) -> Result<Option<(usize, usize)>, Fail> {
    for (entries, body, fits) in rows {
        if fits_on(alloc, *entries, *body)? != *fits {
            return Ok(Some((*entries, *body)));
        }
    }
    Ok(None)
}

/// Each entry has 17 bytes; the next one's gate and length have 5, and it ends 67,200,005 bytes behind the first gate
/// at most.
const ROOMS: [(usize, usize, bool); 7] = [
    (0, 67_200_000, true),
    (0, 67_200_001, false),
    (1, 67_199_983, true),
    (1, 67_199_984, false),
    (31, 67_199_473, true),
    (31, 67_199_474, false),
    (32, 12, false),
];

#[test]
fn has_room_for_so_many_entries_and_bytes(rt: HostRuntime) -> Result<(), Fail> {
    assert_eq!(rt; first_misfit(rt.alloc(), &ROOMS)?, None);
    Ok(())
}
