//! Reads a dump: its keys, or the line from which on there is no reading. The bytes are gone over once, and those
//! before a fault once more to count their lines.
ghost use Rattle.std.specs.Prelude.{◌≡◌, ◌≤◌, ◌-◌, ◌++◌, length, IfOk, OnOk, MatchOption, MatchResult};
ghost use Rattle.model_dump.specs.Record.{header};
ghost use Rattle.model_dump.specs.Adds.{Adds};
ghost use Rattle.model_dump.specs.Dump.{Reads, IsBadAt, line_at};
ghost use Rattle.dump_storage.specs.ProgressView.{IsSound, progress_of};
ghost use Rattle.dump_storage.specs.Reading.{ReadsRecord, ReadsNoRecord, HasReadAll, EndsBefore, HasNoEnding};
ghost use Rattle.storage_api.specs.Formats.{RefusesToRead};

use crate::pieces::behind;
use crate::progress::Progress;
use crate::records::record_before;
use key_meta::Memory;
use key_set::KeySet;
use std::alloc::Global;
use storage_api::ReadRefusal;

/// The keys of a dump. No bytes are read as no keys. A bad file's line counts from 1; with it begins the first thing
/// that has no reading.
pub fn read(alloc: Global, bytes: &[u8]) -> Result<KeySet, ReadRefusal>
    ensures { MatchResult result (λ keys. Reads Adds bytes.now keys) (RefusesToRead (IsBadAt Adds bytes.now)) }
{
    if bytes.is_empty() {
        return Ok(KeySet::new(alloc));
    }
    let Some(records) = behind(bytes, b"kdbOpen 2\n") else {
        return Err(ReadRefusal::BadFile { line: 1 });
    };
    let (keys, rest) = read_records(alloc, records)?;
    match behind_ending(rest) {
        Some([]) => Ok(keys),
        Some(more) => Err(ReadRefusal::BadFile {
            line: line_before(bytes, more),
        }),
        None => Err(ReadRefusal::BadFile {
            line: line_before(bytes, rest),
        }),
    }
}

/// The keys of the records at the front, and what stands behind them, which begins with no further record.
fn read_records(alloc: Global, records: &[u8]) -> Result<(KeySet, &[u8]), Memory>
    ensures { IfOk result (λ read. HasReadAll (header ++ records.now) read.0 read.1.now) }
{
    let mut progress = Progress::new(alloc);
    let mut rest = records;
    while let Some(more) = next(alloc, &mut progress, rest)? {
        rest = more;
    }
    Ok((progress.finish()?, rest))
}

/// Reads one more record, if it has a reading, and gives what stands behind it. Else the progress stays.
fn next<'a>(
    alloc: Global,
    progress: &mut Progress,
    bytes: &'a [u8],
) -> Result<Option<&'a [u8]>, Memory>
    requires { IsSound progress.old }
    ensures sound { OnOk result (IsSound progress.new) }
    ensures step { IfOk result (λ found. MatchOption found
        ((progress.new ≡ progress.old) × ReadsNoRecord (progress_of progress.old) bytes.now)
        (λ rest. ReadsRecord (progress_of progress.old) bytes.now (progress_of progress.new) rest.now)) }
{
    let Some((added, rest)) = record_before(bytes) else {
        return Ok(None);
    };
    if progress.add(alloc, added)? {
        Ok(Some(rest))
    } else {
        Ok(None)
    }
}

/// What stands behind the ending and its line feed, which may be missing.
fn behind_ending(bytes: &[u8]) -> Option<&[u8]>
    ensures { MatchOption result (HasNoEnding bytes.now) (λ more. EndsBefore bytes.now more.now) }
{
    match behind(bytes, b"$end")? {
        [] => Some(&[]),
        rest => behind(rest, b"\n"),
    }
}

/// The line that the last of some bytes begin with.
fn line_before(bytes: &[u8], rest: &[u8]) -> u64
    requires { length rest.now ≤ length bytes.now }
    ensures { result ≡ line_at bytes.now (length bytes.now - length rest.now) }
{
    let before = &bytes[..bytes.len() - rest.len()];
    1 + before.iter().filter(|b| **b == b'\n').count() as u64
}
