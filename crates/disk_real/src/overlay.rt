//! Changes that are kept in memory, over the files of a folder that may not be written. They serve one end: a run that
//! stores nothing brings in the open entries of the journals so, retires a former one, and reads what another's run has
//! committed. No set is ever acknowledged over them, since a head and its entry would have to be put into the journal,
//! and of the journals nothing is taken but the closing of gates, and a cut.
ghost use Rattle.std.specs.Prelude.{◌≤◌, length};

use kdb_outside::{FileName, Memory};
use std::alloc::Global;
use std::io;
use std::io::ErrorKind;

/// The file that the former program kept its journal in.
const FORMER_JOURNAL: &str = "journal";

/// The file of the journal.
const JOURNAL: &str = "journal2";

/// What a gate holds once it is closed.
const CLOSED: &[u8] = &[0];

/// Whether a file is the former program's journal.
pub(crate) fn is_former_journal(file: &FileName) -> bool {
    file.text() == FORMER_JOURNAL
}

/// Whether a file is this program's journal.
pub(crate) fn is_journal(file: &FileName) -> bool {
    file.text() == JOURNAL
}

/// Whether a write may be kept in memory: of the journals only the closing of a gate.
pub(crate) fn may_hold(file: &FileName, piece: &[u8]) -> bool {
    piece == CLOSED || !is_journal(file) && !is_former_journal(file)
}

/// A file with the bytes that a read is to give.
#[derive(Drop)]
struct Held {
    file: FileName,
    bytes: Vec<u8>,
}

/// The files that were changed.
#[derive(Drop)]
pub(crate) struct Overlay {
    files: Vec<Held>,
}

impl Overlay {
    pub(crate) fn new(alloc: Global) -> Overlay {
        Overlay {
            files: Vec::new(alloc),
        }
    }

    /// The bytes of a file that was changed.
    pub(crate) fn bytes_of(&self, file: &FileName) -> Option<&[u8]> {
        for held in &self.files {
            if held.file.text() == file.text() {
                return Some(&held.bytes);
            }
        }
        None
    }

    /// Has a file hold these bytes.
    pub(crate) fn hold(&mut self, file: &FileName, bytes: Vec<u8>) -> Result<(), Memory> {
        for held in &mut self.files {
            if held.file.text() == file.text() {
                held.bytes = bytes;
                return Ok(());
            }
        }
        let file = file.copy()?;
        self.files.push(Held { file, bytes })?;
        Ok(())
    }
}

/// Some bytes with a piece written over them.
pub(crate) fn with_piece(
    alloc: Global,
    bytes: &[u8],
    at: u64,
    piece: &[u8],
) -> io::Result<Vec<u8>> {
    let Ok(at) = usize::try_from(at) else {
        return Err(io::Error::from(ErrorKind::InvalidInput));
    };
    let Some(before) = bytes.get(..at) else {
        return Err(io::Error::from(ErrorKind::InvalidInput));
    };
    let mut whole = Vec::new(alloc);
    whole.extend_from_slice(before)?;
    whole.extend_from_slice(piece)?;
    if let Some(behind) = bytes.get(at.saturating_add(piece.len())..) {
        whole.extend_from_slice(behind)?;
    }
    Ok(whole)
}

/// The first bytes of some, as many as a cut leaves.
pub(crate) fn cut_to(alloc: Global, bytes: &[u8], length: u64) -> io::Result<Vec<u8>> {
    let mut kept = Vec::new(alloc);
    let front = match usize::try_from(length) {
        Ok(length) => bytes.get(..length).unwrap_or(bytes),
        Err(_) => bytes,
    };
    kept.extend_from_slice(front)?;
    Ok(kept)
}

/// Copies from a place of some bytes on into a buffer, and answers how many.
pub(crate) fn copy_from(bytes: &[u8], at: u64, buf: &mut [u8]) -> usize
    ensures { result ≤ length buf.old }
{
    let left = match usize::try_from(at) {
        Ok(at) => bytes.get(at..).unwrap_or(&[]),
        Err(_) => &[],
    };
    let count = buf.len().min(left.len());
    buf[..count].copy_from_slice(&left[..count]);
    count
}
