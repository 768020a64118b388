//! What an opening makes of journals as they are found: whole, bad, cut, with odd gates, left by former programs.

use crate::entries::{MADE, disk_of, has, have};
use disk_memory::MemDisk;
use intent_journal::Journal;
use journal_steps::JournalFault;
use std::alloc::Global;
use std::test::Fail;

/// A former journal and a journal, the place that is told of what isn't whole in them, and the calls of their opening;
/// what is left of the former journal, and what `a.ecf` and `b.ecf` have then, both of which had `0`.
type Row = (
    &'static [u8],
    &'static [u8],
    Option<u64>,
    u64,
    &'static [u8],
    &'static [u8],
    &'static [u8],
);

/// Former journals. One that isn't bad and has a gate and a length is retired by five calls.
const FORMER: [Row; 12] = [
    // Nothing, and too few bytes.
    (b"", b"", None, 2, b"", b"0", b"0"),
    (
        b"\x01\x17\x00",
        b"\x01\x02\x0d\x00\x00",
        None,
        2,
        b"\x01\x17\x00",
        b"0",
        b"0",
    ),
    // A closed gate, and one that is neither open nor closed, with an entry behind them.
    (
        b"\x00\x0c\x00\x00\x00\x81\x05b.ecf\x01\x00\x00\x002\x00",
        b"",
        None,
        8,
        b"\x00",
        b"0",
        b"0",
    ),
    (
        b"\x07\x0c\x00\x00\x00\x81\x05b.ecf\x01\x00\x00\x002\x00",
        b"",
        None,
        8,
        b"\x00",
        b"0",
        b"0",
    ),
    // An open gate without a whole length is no open one.
    (
        b"\x01\x0c\x00\x00\x00\x81\x05b.ecf\x01\x00\x00\x002\x01\x0c\x00",
        b"",
        None,
        13,
        b"\x00",
        b"0",
        b"2",
    ),
    // The entry of the program before that: what stands behind it is no entry of the list.
    (
        b"\x01\x0c\x00\x00\x00\x01\x05b.ecf\x01\x00\x00\x002\x01\x0c\x00\x00\x00\x01\x05b.ecf\x01\x00\x00\x003",
        b"",
        None,
        12,
        b"\x00",
        b"0",
        b"2",
    ),
    // Two entries: the later one's content stays, and each file is written once.
    (
        b"\x01\x17\x00\x00\x00\x82\x05a.ecf\x01\x00\x00\x001\x05b.ecf\x01\x00\x00\x001\x01\x0c\x00\x00\x00\x81\x05b.ecf\x01\x00\x00\x002\x00",
        b"",
        None,
        18,
        b"\x00",
        b"1",
        b"2",
    ),
    // A second gate that is neither open nor closed counts as closed.
    (
        b"\x01\x0c\x00\x00\x00\x81\x05b.ecf\x01\x00\x00\x002\x4d\x0c\x00\x00\x00\x81\x05b.ecf\x01\x00\x00\x003\x00",
        b"",
        None,
        13,
        b"\x00",
        b"0",
        b"2",
    ),
    // A second entry that is cut: nothing is brought in, and the journal stays.
    (
        b"\x01\x0c\x00\x00\x00\x81\x05b.ecf\x01\x00\x00\x002\x01\x0c\x00\x00\x00\x81\x05b",
        b"",
        Some(2),
        5,
        b"\x01\x0c\x00\x00\x00\x81\x05b.ecf\x01\x00\x00\x002\x01\x0c\x00\x00\x00\x81\x05b",
        b"0",
        b"0",
    ),
    // An entry that would end too late.
    (
        b"\x01\xff\xff\xff\xff",
        b"",
        Some(0),
        2,
        b"\x01\xff\xff\xff\xff",
        b"0",
        b"0",
    ),
    // A file that is cut, and a length that is more than the body.
    (
        b"\x01\x02\x00\x00\x00\x81",
        b"",
        Some(1),
        3,
        b"\x01\x02\x00\x00\x00\x81",
        b"0",
        b"0",
    ),
    (
        b"\x01\x08\x00\x00\x00\x01\x01a\x00\x00\x00\x00",
        b"",
        Some(7),
        3,
        b"\x01\x08\x00\x00\x00\x01\x01a\x00\x00\x00\x00",
        b"0",
        b"0",
    ),
];

/// Journals, some behind a former one.
const HEADED: [Row; 17] = [
    // A header gate that is closed, and one that is neither open nor closed, before an open entry.
    (
        b"",
        b"\x00\x02\x0d\x00\x00\x00\x02\x05a.ecf\x05b.ecf\x01\x0c\x00\x00\x00\x81\x05b.ecf\x01\x00\x00\x002\x00",
        None,
        3,
        b"",
        b"0",
        b"0",
    ),
    (
        b"",
        b"\x07\x02\x0d\x00\x00\x00\x02\x05a.ecf\x05b.ecf\x01\x0c\x00\x00\x00\x81\x05b.ecf\x01\x00\x00\x002\x00",
        None,
        3,
        b"",
        b"0",
        b"0",
    ),
    // A header that is too long, none, one that is cut, and one whose name has a journal's beginning.
    (
        b"",
        b"\x01\x02\x42\x19\x00\x00",
        Some(2),
        3,
        b"",
        b"0",
        b"0",
    ),
    (
        b"",
        b"\x01\x02\x00\x00\x00\x00",
        Some(6),
        4,
        b"",
        b"0",
        b"0",
    ),
    (
        b"",
        b"\x01\x02\x41\x19\x00\x00\x01\x01a",
        Some(9),
        4,
        b"",
        b"0",
        b"0",
    ),
    (
        b"",
        b"\x01\x02\x09\x00\x00\x00\x01\x07journal",
        Some(8),
        4,
        b"",
        b"0",
        b"0",
    ),
    // Bytes behind its last name, and a whole header, behind which the file ends.
    (
        b"",
        b"\x01\x02\x04\x00\x00\x00\x01\x01a\x00",
        Some(9),
        4,
        b"",
        b"0",
        b"0",
    ),
    (
        b"",
        b"\x01\x02\x03\x00\x00\x00\x01\x01a",
        None,
        5,
        b"",
        b"0",
        b"0",
    ),
    // An entry that would end too late, one with a plain count, and one that is cut.
    (
        b"",
        b"\x01\x02\x03\x00\x00\x00\x01\x01a\x01\xff\xff\xff\xff",
        Some(10),
        5,
        b"",
        b"0",
        b"0",
    ),
    (
        b"",
        b"\x01\x02\x03\x00\x00\x00\x01\x01a\x01\x07\x00\x00\x00\x01\x01a\x00\x00\x00\x00\x00",
        Some(14),
        6,
        b"",
        b"0",
        b"0",
    ),
    (
        b"",
        b"\x01\x02\x03\x00\x00\x00\x01\x01a\x01\x07\x00\x00\x00\x81\x01a",
        Some(17),
        6,
        b"",
        b"0",
        b"0",
    ),
    // One whose gate is neither open nor closed.
    (
        b"",
        b"\x01\x02\x03\x00\x00\x00\x01\x01a\x07\x07\x00\x00\x00\x81\x01b\x00\x00\x00\x00\x00",
        None,
        5,
        b"",
        b"0",
        b"0",
    ),
    // A closed list, as this program leaves it, and a former journal that was retired.
    (
        b"\x00",
        b"\x01\x02\x0d\x00\x00\x00\x02\x05a.ecf\x05b.ecf\x00\x0c\x00\x00\x00\x81\x05b.ecf\x01\x00\x00\x002\x00",
        None,
        5,
        b"\x00",
        b"0",
        b"0",
    ),
    // Two entries behind a head.
    (
        b"\x00",
        b"\x01\x02\x0d\x00\x00\x00\x02\x05a.ecf\x05b.ecf\x01\x17\x00\x00\x00\x82\x05a.ecf\x01\x00\x00\x001\x05b.ecf\x01\x00\x00\x001\x01\x0c\x00\x00\x00\x81\x05b.ecf\x01\x00\x00\x002\x00",
        None,
        18,
        b"\x00",
        b"1",
        b"2",
    ),
    // A former journal that is closed, before an entry: it is retired first.
    (
        b"\x00\x00\x00\x00\x00",
        b"\x01\x02\x0d\x00\x00\x00\x02\x05a.ecf\x05b.ecf\x01\x17\x00\x00\x00\x82\x05a.ecf\x01\x00\x00\x001\x05b.ecf\x01\x00\x00\x001\x01\x0c\x00\x00\x00\x81\x05b.ecf\x01\x00\x00\x002\x00",
        None,
        24,
        b"\x00",
        b"1",
        b"2",
    ),
    // A former journal with an entry, before a head and a closed list.
    (
        b"\x01\x0c\x00\x00\x00\x81\x05b.ecf\x01\x00\x00\x002\x00",
        b"\x01\x02\x0d\x00\x00\x00\x02\x05a.ecf\x05b.ecf\x00",
        None,
        16,
        b"\x00",
        b"0",
        b"2",
    ),
    // An entry of a file that the header doesn't name, behind a former journal that is brought in and retired all the
    // same.
    (
        b"\x01\x0c\x00\x00\x00\x81\x05b.ecf\x01\x00\x00\x002\x00",
        b"\x01\x02\x0d\x00\x00\x00\x02\x05a.ecf\x05b.ecf\x01\x0c\x00\x00\x00\x81\x05c.ecf\x01\x00\x00\x003\x00",
        Some(26),
        17,
        b"\x00",
        b"0",
        b"2",
    ),
];

/// Where the journals of a disk are bad, if they are, and the disk behind the opening that told it.
fn opened(alloc: Global, disk: MemDisk) -> Result<(Option<u64>, MemDisk), Fail> {
    match Journal::open(alloc, disk) {
        Ok(journal) => Ok((None, journal.into_disk())),
        Err(refused) => match refused.fault {
            JournalFault::BadJournal { at } => Ok((Some(at), refused.disk)),
            _ => Err("the disk and the memory hold")?,
        },
    }
}

/// What both files have before.
const OLD: &[u8] = b"0";

/// The same of a disk with these journals.
fn opened_with(
    alloc: Global,
    former: &[u8],
    journal: &[u8],
) -> Result<(Option<u64>, MemDisk), Fail> {
    opened(
        alloc,
        disk_of(alloc, &(OLD, OLD, former, journal), u64::MAX)?,
    )
}

fn comes_to(alloc: Global, row: &Row) -> Result<bool, Fail> {
    let (former, journal, place, calls, left, first, second) = row;
    let (bad, disk) = opened_with(alloc, former, journal)?;
    let tells = bad == *place && disk.calls() == MADE.saturating_add(*calls);
    Ok(tells && has(alloc, &disk, "journal", left)? && have(alloc, &disk, first, second)?)
}

/// The place of the first row whose opening comes to something else.
fn first_other(alloc: Global, rows: &[Row]) -> Result<Option<usize>, Fail> {
    for (place, row) in rows.iter().enumerate() {
        if !comes_to(alloc, row)? {
            return Ok(Some(place));
        }
    }
    Ok(None)
}

#[test]
fn brings_the_open_entries_into_their_files(rt: HostRuntime) -> Result<(), Fail> {
    assert_eq!(rt; first_other(rt.alloc(), &FORMER)?, None);
    assert_eq!(rt; first_other(rt.alloc(), &HEADED)?, None);
    Ok(())
}

/// A head for a file.
const HEAD: &[u8] = b"\x01\x02\x03\x00\x00\x00\x01\x01a";

/// Some bytes, and behind them so many open entries, each with nothing for that file, and a closed gate.
fn many(alloc: Global, front: &[u8], count: usize) -> Result<Vec<u8>, Fail> {
    let mut bytes = front.to_vec(alloc)?;
    for _ in 0..count {
        bytes.extend_from_slice(b"\x01\x07\x00\x00\x00\x81\x01a\x00\x00\x00\x00")?;
    }
    bytes.push(0)?;
    Ok(bytes)
}

/// Where a former journal, or a journal behind a head, of so many entries is bad, and how many calls tell it.
fn told_of(alloc: Global, headed: bool, count: usize) -> Result<(Option<u64>, u64), Fail> {
    let front = if headed { HEAD } else { b"" };
    let bytes = many(alloc, front, count)?;
    let (bad, disk) = if headed {
        opened_with(alloc, b"", &bytes)?
    } else {
        opened_with(alloc, &bytes, b"")?
    };
    Ok((bad, disk.calls().saturating_sub(MADE)))
}

#[test]
fn takes_the_most_entries_and_not_one_more(rt: HostRuntime) -> Result<(), Fail> {
    let alloc = rt.alloc();
    // Two lengths, the first bytes and the header, 32 heads and bodies, and the head behind them; the sync of the
    // journal; write, cut and sync of the file; and two calls for the gate.
    assert_eq!(rt; told_of(alloc, true, 32)?, (None, 75));
    assert_eq!(rt; told_of(alloc, true, 33)?, (Some(394), 69));
    // Of a former journal there is no head, and two calls more cut it.
    assert_eq!(rt; told_of(alloc, false, 32)?, (None, 75));
    assert_eq!(rt; told_of(alloc, false, 33)?, (Some(0), 66));
    Ok(())
}
