//! Reads the body of an entry from left to right. Each function takes a field from the front of the bytes.
ghost use Rattle.std.specs.Prelude.{◌≡◌, ℕ, true, [], length, IfOk, Err, option_map};
ghost use Rattle.journal_codec.specs.Entry.{IsEntry, spelled};
ghost use Rattle.journal_codec.specs.Forms.{uncounted, spelled_on};
ghost use Rattle.journal_codec.specs.Listed.{are_listed, is_next_of, read_listed};
ghost use Rattle.journal_codec.specs.Reading.{Reads, Fails, read_body, byte_at, is_count as is_number_of_files, count_at, number_at, bytes_at, is_content, file_at, files_at, all_of};
ghost use Rattle.journal_codec.specs.Places.{IsPlace};
ghost use Rattle.journal_codec.specs.Stops.{Gives};

use crate::faults::{Stop, fault_of};
use crate::forms::plain_count;
use crate::names::{last_name, next_of};
use crate::{DecodeFault, FileText, followed};
use backend_files::LONGEST_FILE;
use kdb_outside::FileName;
use key_meta::List;
use std::alloc::Global;

/// The most files of an entry, and of a header.
const MOST_FILES: u8 = 64;

/// The files of the entry that this body spells, with either form of the count, or the place of the first field that
/// has no reading: it is behind the longest beginning that the body of an entry can have, and behind the length that
/// comes next, if that is whole.
pub fn decode(alloc: Global, body: &[u8]) -> Result<List<FileText>, DecodeFault>
    ensures found { IfOk result (λ files. IsEntry files × (spelled files ≡ uncounted body.now)) }
    ensures reads { IfOk result (λ files. read_body (uncounted body.now) ≡ Reads files) }
    ensures bad { (at : ℕ) → result ≡ Err (DecodeFault.BadJournal at) → read_body (uncounted body.now) ≡ Fails at }
    ensures place { (at : ℕ) → result ≡ Err (DecodeFault.BadJournal at) → IsPlace (uncounted body.now) at }
{
    match read_all(alloc, None, body) {
        Ok(files) => Ok(List::from_vec(files)),
        Err(stop) => Err(fault_of(body.len(), stop)),
    }
}

/// The same of a body that says that another gate stands behind it, and whose files are all of these.
pub fn decode_listed(
    alloc: Global,
    body: &[u8],
    files: &[FileName],
) -> Result<List<FileText>, DecodeFault>
    ensures found { IfOk result (λ entry. IsEntry entry × (are_listed files.now entry ≡ true)
        × (spelled_on entry ≡ body.now)) }
    ensures reads { IfOk result (λ entry. read_listed files.now body.now ≡ Reads entry) }
    ensures bad { (at : ℕ) → result ≡ Err (DecodeFault.BadJournal at) → read_listed files.now body.now ≡ Fails at }
{
    if !followed(body) {
        return Err(DecodeFault::BadJournal { at: 0 });
    }
    match read_all(alloc, Some(files), body) {
        Ok(entry) => Ok(List::from_vec(entry)),
        Err(stop) => Err(fault_of(body.len(), stop)),
    }
}

#[tactic(auto, unfolding(crate::specs::Reading::all_of))]
fn read_all(alloc: Global, names: Option<&[FileName]>, body: &[u8]) -> Result<Vec<FileText>, Stop>
    ensures { Gives (λ files. files.items) result
        (all_of (is_next_of (option_map (λ names. names.now) names.entry)) (uncounted body.now)) }
{
    let (count, files) = count_of(body)?;
    let (files, rest) = files_of(alloc, names, count, files)?;
    if rest.is_empty() {
        Ok(files)
    } else {
        Err(stop_before(rest))
    }
}

#[tactic(auto, unfolding(crate::specs::Reading::files_at))]
fn files_of<'a>(
    alloc: Global,
    names: Option<&[FileName]>,
    count: u8,
    bytes: &'a [u8],
) -> Result<(Vec<FileText>, &'a [u8]), Stop>
    ensures { Gives (λ x. (x.0.items, x.1.now)) result
        (files_at (is_next_of (option_map (λ names. names.now) names.entry)) count [] bytes.now) }
{
    let mut files = Vec::new(alloc);
    let mut rest = bytes;
    for _ in 0..count {
        let (file, after) = file_of(alloc, names, last_name(&files), rest)?;
        if files.push(file).is_err() {
            return Err(Stop::Memory);
        }
        rest = after;
    }
    Ok((files, rest))
}

#[tactic(auto, unfolding(crate::specs::Reading::file_at))]
fn file_of<'a>(
    alloc: Global,
    names: Option<&[FileName]>,
    previous: &[u8],
    bytes: &'a [u8],
) -> Result<(FileText, &'a [u8]), Stop>
    ensures { Gives (λ x. (x.0, x.1.now)) result
        (file_at (is_next_of (option_map (λ names. names.now) names.entry)) previous.now bytes.now) }
{
    let (name_size, rest) = byte_of(bytes)?;
    let (file, rest) = name_of(alloc, names, previous, name_size, rest)?;
    let (size, rest) = number_of(rest)?;
    let (bytes, rest) = content_of(alloc, size, rest)?;
    Ok((FileText { file, bytes }, rest))
}

pub(crate) fn name_of<'a>(
    alloc: Global,
    names: Option<&[FileName]>,
    previous: &[u8],
    size: u8,
    bytes: &'a [u8],
) -> Result<(FileName, &'a [u8]), Stop>
    ensures { Gives (λ x. (x.0, x.1.now)) result
        (bytes_at (is_next_of (option_map (λ names. names.now) names.entry) previous.now) size bytes.now) }
{
    let size = size as usize;
    if bytes.len() < size {
        return Err(stop_before(bytes));
    }
    let (name, rest) = bytes.split_at(size);
    match next_of(alloc, names, previous, name) {
        Ok(Some(file)) => Ok((file, rest)),
        Ok(None) => Err(stop_before(bytes)),
        Err(_) => Err(Stop::Memory),
    }
}

fn content_of(alloc: Global, size: u32, bytes: &[u8]) -> Result<(List<u8>, &[u8]), Stop>
    ensures { Gives (λ x. (x.0, x.1.now)) result (bytes_at is_content size bytes.now) }
{
    let size = size as usize;
    if size as u64 > LONGEST_FILE || bytes.len() < size {
        return Err(stop_before(bytes));
    }
    let (content, rest) = bytes.split_at(size);
    match Vec::from_slice(alloc, content) {
        Ok(content) => Ok((List::from_vec(content), rest)),
        Err(_) => Err(Stop::Memory),
    }
}

#[tactic(auto, unfolding(crate::specs::Reading::count_at))]
fn count_of(body: &[u8]) -> Result<(u8, &[u8]), Stop>
    ensures { Gives (λ x. (x.0, x.1.now)) result (count_at (uncounted body.now)) }
{
    let (count, rest) = byte_of(body)?;
    let count = plain_count(count);
    if is_count(count) {
        Ok((count, rest))
    } else {
        Err(stop_before(body))
    }
}

/// Whether an entry or a header can have so many files.
pub(crate) fn is_count(count: u8) -> bool
    ensures { result ≡ is_number_of_files count }
{
    0 < count && count <= MOST_FILES
}

fn number_of(bytes: &[u8]) -> Result<(u32, &[u8]), Stop>
    ensures { Gives (λ x. (x.0, x.1.now)) result (number_at bytes.now) }
{
    if bytes.len() < 4 {
        return Err(stop_before(bytes));
    }
    let (front, rest) = bytes.split_at(4);
    let number = u32::from_le_bytes([front[0], front[1], front[2], front[3]]);
    Ok((number, rest))
}

pub(crate) fn byte_of(bytes: &[u8]) -> Result<(u8, &[u8]), Stop>
    ensures { Gives (λ x. (x.0, x.1.now)) result (byte_at bytes.now) }
{
    match bytes {
        [byte, rest @ ..] => Ok((*byte, rest)),
        [] => Err(stop_before(bytes)),
    }
}

/// The field that these bytes begin with has no reading.
pub(crate) fn stop_before(bytes: &[u8]) -> Stop
    ensures { result ≡ Stop.Before (length bytes.now) }
{
    Stop::Before { left: bytes.len() }
}
