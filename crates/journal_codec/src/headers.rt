//! The header of the file `journal2`: the names of all files that its entries can change, as bytes and back.
//!
//! Behind the gate: the version, the length of the header in four bytes, and the header, which is how many names there
//! are in one byte, and of each name its length in one byte, and the name.
ghost use Rattle.std.specs.Prelude.{◌≡◌, ◌++◌, ℕ, [], length, IfOk, Ok, Err};
ghost use Rattle.journal_codec.specs.Header.{IsHeader, spelled_header, header_bytes};
ghost use Rattle.journal_codec.specs.Header.{name_at, names_at, all_names, read_header};
ghost use Rattle.journal_codec.specs.Reading.{count_at};
ghost use Rattle.journal_codec.specs.Stops.{Gives};

use crate::DecodeFault;
use crate::faults::{Stop, fault_of};
use crate::names::last_of;
use crate::reading::{byte_of, is_count, name_of, stop_before};
use crate::writing::{CLOSED, put_name};
use kdb_outside::{FileName, Memory};
use key_meta::List;
use std::alloc::Global;

/// The version of the format that has a header.
const VERSION: u8 = 2;

/// The bytes of a header behind its gate: the version, the length in four bytes, the low one first, the header of these
/// names, and the first gate of the list, closed.
pub fn encode_header(alloc: Global, files: &[FileName]) -> Result<Vec<u8>, Memory>
    requires { IsHeader files.now }
    ensures { IfOk result (λ bytes. bytes.items ≡ header_bytes files.now) }
{
    let size = header_size(files);
    let mut out = Vec::with_capacity(alloc, 6 + size as usize)?;
    out.push(VERSION)?;
    out.extend_from_slice(&size.to_le_bytes())?;
    out.push(files.len() as u8)?;
    for file in files {
        put_name(&mut out, file)?;
    }
    out.push(CLOSED)?;
    Ok(out)
}

/// How many bytes the header has.
fn header_size(files: &[FileName]) -> u32
    requires { IsHeader files.now }
    ensures { result ≡ length (spelled_header files.now) }
{
    let mut size = 1;
    for file in files {
        size += 1 + file.text().len() as u32;
    }
    size
}

/// The names that a header holds, from its count on, or the place of the first field that is missing, cut or against a
/// rule: the count, the length of a name, a name, or bytes behind the last one.
pub fn decode_header(alloc: Global, header: &[u8]) -> Result<List<FileName>, DecodeFault>
    ensures found { IfOk result (λ names. read_header header.now ≡ Ok names) }
    ensures bad { (at : ℕ) → result ≡ Err (DecodeFault.BadJournal at) → read_header header.now ≡ Err at }
{
    match read_names(alloc, header) {
        Ok(names) => Ok(List::from_vec(names)),
        Err(stop) => Err(fault_of(header.len(), stop)),
    }
}

#[tactic(auto, unfolding(crate::specs::Header::all_names))]
fn read_names(alloc: Global, header: &[u8]) -> Result<Vec<FileName>, Stop>
    ensures { Gives (λ names. names.items) result (all_names header.now) }
{
    let (count, names) = count_of(header)?;
    let (names, rest) = names_of(alloc, count, names)?;
    if rest.is_empty() {
        Ok(names)
    } else {
        Err(stop_before(rest))
    }
}

#[tactic(auto, unfolding(crate::specs::Header::names_at))]
fn names_of(alloc: Global, count: u8, bytes: &[u8]) -> Result<(Vec<FileName>, &[u8]), Stop>
    ensures { Gives (λ x. (x.0.items, x.1.now)) result (names_at count [] bytes.now) }
{
    let mut names = Vec::new(alloc);
    let mut rest = bytes;
    for _ in 0..count {
        let (name, after) = sized_name_of(alloc, last_of(&names), rest)?;
        if names.push(name).is_err() {
            return Err(Stop::Memory);
        }
        rest = after;
    }
    Ok((names, rest))
}

#[tactic(auto, unfolding(crate::specs::Header::name_at))]
fn sized_name_of<'a>(
    alloc: Global,
    previous: &[u8],
    bytes: &'a [u8],
) -> Result<(FileName, &'a [u8]), Stop>
    ensures { Gives (λ x. (x.0, x.1.now)) result (name_at previous.now bytes.now) }
{
    let (size, rest) = byte_of(bytes)?;
    name_of(alloc, None, previous, size, rest)
}

#[tactic(auto, unfolding(crate::specs::Reading::count_at))]
fn count_of(header: &[u8]) -> Result<(u8, &[u8]), Stop>
    ensures { Gives (λ x. (x.0, x.1.now)) result (count_at header.now) }
{
    let (count, rest) = byte_of(header)?;
    if is_count(count) {
        Ok((count, rest))
    } else {
        Err(stop_before(header))
    }
}
