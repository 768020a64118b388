//! Runs of commits over the journal of a disk in memory: how each call ends, the state behind it, what the files hold
//! and how many calls of the disk it took; and two commits and a flush with each call of the disk failing alone, and a
//! crash behind them.
ghost use Rattle.std.specs.Prelude.{IfOk};
ghost use Rattle.journal_codec.specs.Entry.{IsEntry};
ghost use Rattle.intent_journal.specs.Journal.{IsHeaderBytes};

use crate::file_names::name;
use disk_memory::MemDisk;
use intent_journal::Journal;
use journal_codec::{
    FileText, decode, decode_header, encode, encode_header, headers_read_what_is_spelled,
    spells_what_is_read,
};
use journal_steps::State;
use key_meta::List;
use std::alloc::Global;
use std::test::Fail;
use store_phases::{commit, flush, make_room, open};

/// The body of an entry that writes `1` into `a.ecf`.
const FIRST: &[u8] = b"\x01\x05a.ecf\x01\x00\x00\x001";

/// The body of an entry that writes `22` into `a.ecf` and nothing into `b.ecf`.
const SECOND: &[u8] = b"\x02\x05a.ecf\x02\x00\x00\x0022\x05b.ecf\x00\x00\x00\x00";

fn entry(alloc: Global, body: &[u8]) -> Result<List<FileText>, Fail>
    ensures { IfOk result IsEntry }
{
    spells_what_is_read();
    match decode(alloc, body) {
        Ok(files) => Ok(files),
        Err(_) => Err("it is a body")?,
    }
}

/// The header that names both files.
const BOTH: &[u8] = b"\x02\x05a.ecf\x05b.ecf";

/// The head of a journal for both files.
fn head(alloc: Global) -> Result<Vec<u8>, Fail>
    ensures { IfOk result (λ header. IsHeaderBytes header.items) }
{
    headers_read_what_is_spelled();
    match decode_header(alloc, BOTH) {
        Ok(names) => Ok(encode_header(alloc, names.as_slice())?),
        Err(_) => Err("it is a header")?,
    }
}

/// Whether an entry is committed.
fn is_committed(alloc: Global, journal: &mut Journal<MemDisk>, body: &[u8]) -> Result<bool, Fail> {
    let files = entry(alloc, body)?;
    let encoded = encode(alloc, files.as_slice())?;
    Ok(commit(journal, &head(alloc)?, &encoded, files).is_ok())
}

/// Makes the call of a letter, and tells whether it goes through: `1` and `2` commit an entry, `r` makes room for the
/// longest body, `s` for the longest that fits behind the first entry, and `t` for one of a byte more. Any other letter
/// flushes, and that goes through where it wrote.
fn is_done(alloc: Global, journal: &mut Journal<MemDisk>, letter: u8) -> Result<bool, Fail> {
    match letter {
        b'1' => is_committed(alloc, journal, FIRST),
        b'2' => is_committed(alloc, journal, SECOND),
        b'r' => Ok(make_room(journal, 67_200_000).is_ok()),
        b's' => Ok(make_room(journal, 67_199_983).is_ok()),
        b't' => Ok(make_room(journal, 67_199_984).is_ok()),
        _ => Ok(flush(journal) == Ok(true)),
    }
}

/// How some calls end, in turn: a digit for each, which is 1 where it goes through, and else 0.
fn outcomes(alloc: Global, journal: &mut Journal<MemDisk>, letters: &[u8]) -> Result<u64, Fail> {
    let mut told = 0u64;
    for letter in letters {
        let done = is_done(alloc, journal, *letter)?;
        told = told.saturating_mul(10).saturating_add(u64::from(done));
    }
    Ok(told)
}

/// How some calls on a journal end, its state behind them, and its disk.
fn called(
    alloc: Global,
    journal: Journal<MemDisk>,
    letters: &[u8],
) -> Result<(u64, State, MemDisk), Fail> {
    let mut journal = journal;
    let told = outcomes(alloc, &mut journal, letters)?;
    Ok((told, journal.state(), journal.into_disk()))
}

/// The same on an empty disk of which the call of this number fails, none where it is 0. Where it isn't opened, no call
/// ends.
fn run_on(alloc: Global, failing: u64, letters: &[u8]) -> Result<(u64, State, MemDisk), Fail> {
    let disk = MemDisk::new(alloc, Vec::new(alloc), vec![in alloc; failing]?, None)?;
    match open(alloc, disk) {
        Ok(journal) => called(alloc, journal, letters),
        Err(refused) => Ok((0, State::Doubt, refused.disk)),
    }
}

/// Whether `a.ecf` has these bytes.
fn has(alloc: Global, disk: &MemDisk, bytes: &[u8]) -> Result<bool, Fail> {
    Ok(disk.bytes(&name(alloc, "a.ecf")?) == bytes)
}

/// Some calls, the call of the disk that fails, how the calls end, the state behind them, what `a.ecf` has then, and
/// the calls of the disk.
type Row = (&'static [u8], u64, u64, State, &'static [u8], u64);

fn comes_to(alloc: Global, row: &Row) -> Result<bool, Fail> {
    let (letters, failing, outcomes, state, bytes, calls) = row;
    let (told, now, disk) = run_on(alloc, *failing, letters)?;
    let ends = told == *outcomes && now == *state && disk.calls() == *calls;
    Ok(ends && has(alloc, &disk, bytes)?)
}

/// The place of the first row that comes to something else.
fn first_other(alloc: Global, rows: &[Row]) -> Result<Option<usize>, Fail> {
    for (place, row) in rows.iter().enumerate() {
        if !comes_to(alloc, row)? {
            return Ok(Some(place));
        }
    }
    Ok(None)
}

/// Two calls open, two settle the header gate, four put the head, and four each put a body and open its gate. A file
/// that is brought in takes three, and the gate that is closed behind them two.
const ROWS: [Row; 12] = [
    (b"", 0, 0, State::Doubt, b"", 2),
    // Nothing waits.
    (b"f", 0, 0, State::Doubt, b"", 2),
    (b"r", 0, 1, State::Bare, b"", 4),
    (b"1", 0, 1, State::Lag, b"", 12),
    // The first entry ends 17 bytes behind the first gate.
    (b"1s", 0, 11, State::Lag, b"", 12),
    (b"1t", 0, 11, State::Clean, b"1", 17),
    (b"12", 0, 11, State::Lag, b"", 16),
    (b"1t2", 0, 111, State::Lag, b"1", 21),
    (b"12f", 0, 111, State::Clean, b"22", 24),
    (b"1ff", 0, 110, State::Clean, b"1", 17),
    // A file fails, and is written by the next flush.
    (b"1f", 13, 10, State::Lag, b"", 13),
    (b"1ff", 13, 101, State::Clean, b"1", 18),
];

#[test]
fn writes_the_files_when_the_list_is_brought_in(rt: HostRuntime) -> Result<(), Fail> {
    assert_eq!(rt; first_other(rt.alloc(), &ROWS)?, None);
    Ok(())
}

/// How two commits and a flush end where this call of the disk fails, and what `a.ecf` has behind a crash and an
/// opening.
fn wanted(failed: u64) -> (u64, &'static [u8]) {
    match failed {
        1..=2 => (0, b""),
        3..=12 => (11, b"22"),
        13..=16 => (101, b"1"),
        17..=24 => (110, b"22"),
        _ => (111, b"22"),
    }
}

/// Whether `a.ecf` has these bytes once a disk was opened again.
fn has_again(alloc: Global, disk: MemDisk, bytes: &[u8]) -> Result<bool, Fail> {
    match open(alloc, disk) {
        Ok(journal) => has(alloc, &journal.into_disk(), bytes),
        Err(_) => Err("a crashed disk opens")?,
    }
}

fn fits(alloc: Global, failed: u64, choice: u64) -> Result<bool, Fail> {
    let (outcomes, bytes) = wanted(failed);
    let (told, _, disk) = run_on(alloc, failed, b"12f")?;
    Ok(told == outcomes && has_again(alloc, disk.crash(choice)?, bytes)?)
}

/// The first of so many calls behind whose failure something else is told, or left by one of so many crashes.
fn first_unfit(alloc: Global, calls: u64, choices: u64) -> Result<Option<u64>, Fail> {
    for failed in 1..=calls {
        for choice in 0..choices {
            if !fits(alloc, failed, choice)? {
                return Ok(Some(failed));
            }
        }
    }
    Ok(None)
}

#[test]
fn stores_what_it_acknowledges_whichever_call_fails(rt: HostRuntime) -> Result<(), Fail> {
    assert_eq!(rt; first_unfit(rt.alloc(), 25, 10)?, None);
    Ok(())
}
