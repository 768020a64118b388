//! Which names an entry or a header can hold, one behind the other.
ghost use Rattle.std.specs.Prelude.{◌≡◌, IfOk, SomeIff, IsTrue, option_map};
ghost use Rattle.journal_codec.specs.Reading.{is_next_name};
ghost use Rattle.journal_codec.specs.Listed.{is_next_of, is_among as is_one_of};
ghost use Rattle.journal_codec.specs.Stops.{last_name as name_of_last};

use crate::FileText;
use kdb_outside::{FileName, Memory};
use std::alloc::Global;

/// The file's name that bytes are, where it isn't one of the journal's and stands above the name before it.
pub(crate) fn next_name(
    alloc: Global,
    previous: &[u8],
    bytes: &[u8],
) -> Result<Option<FileName>, Memory>
    ensures { IfOk result (λ found. SomeIff found (IsTrue (is_next_name previous.now bytes.now)) bytes.now) }
{
    if bytes.starts_with(b"journal") || !previous.cmp(bytes).is_lt() {
        return Ok(None);
    }
    match str::from_utf8(bytes) {
        Ok(text) => FileName::new(alloc, text),
        Err(_) => Ok(None),
    }
}

/// The file's name that bytes are, where it is a next one, and one of these where they are told.
pub(crate) fn next_of(
    alloc: Global,
    names: Option<&[FileName]>,
    previous: &[u8],
    bytes: &[u8],
) -> Result<Option<FileName>, Memory>
    ensures { IfOk result (λ found. SomeIff found
        (IsTrue (is_next_of (option_map (λ names. names.now) names.entry) previous.now bytes.now)) bytes.now) }
{
    let Some(name) = next_name(alloc, previous, bytes)? else {
        return Ok(None);
    };
    if is_among(names, &name) {
        Ok(Some(name))
    } else {
        Ok(None)
    }
}

/// Whether a name is one of these, where they are told.
fn is_among(names: Option<&[FileName]>, name: &FileName) -> bool
    ensures { result ≡ is_one_of (option_map (λ names. names.now) names.entry) name.now }
{
    match names {
        Some(names) => names.contains(name),
        None => true,
    }
}

/// The last name, and no bytes where there is none.
pub(crate) fn last_of(names: &[FileName]) -> &[u8]
    ensures { result.now ≡ name_of_last (λ name. name) names.now }
{
    match names.last() {
        Some(name) => name.text().as_bytes(),
        None => b"",
    }
}

/// The last file's name, and no bytes where there is no file.
pub(crate) fn last_name(files: &[FileText]) -> &[u8]
    ensures { result.now ≡ name_of_last (λ f. f.file) files.now }
{
    match files.last() {
        Some(file) => file.file.text().as_bytes(),
        None => b"",
    }
}
