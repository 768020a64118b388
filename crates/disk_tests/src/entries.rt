//! Two entries, the header of their files, and how an entry is added to the list of a journal; and a disk of four
//! files.
ghost use Rattle.std.specs.Prelude.{◌≡◌, ◌++◌, ◌∷◌, [], T, true, false, IfOk, OnOk};
ghost use Rattle.journal_codec.specs.Entry.{IsEntry};
ghost use Rattle.journal_codec.specs.Forms.{behind_gate};
ghost use Rattle.intent_journal.specs.Journal.{IsHeaderBytes};

use disk_memory::MemDisk;
use intent_journal::Journal;
use journal_codec::{
    FileText, decode, decode_header, encode, encode_header, headers_read_what_is_spelled,
    spells_what_is_read,
};
use journal_steps::State;
use kdb_outside::{Disk, Failed, FileName};
use key_meta::List;
use std::alloc::Global;
use std::test::Fail;

/// The body of an entry with `1` for two files, and of one with `2` for the second of them.
pub(crate) const FIRST: &[u8] = b"\x02\x05a.ecf\x01\x00\x00\x001\x05b.ecf\x01\x00\x00\x001";

pub(crate) const SECOND: &[u8] = b"\x01\x05b.ecf\x01\x00\x00\x002";

fn name(alloc: Global, text: &str) -> Result<FileName, Fail> {
    Ok(FileName::new(alloc, text)?.ok_or("it is a name")?)
}

fn entry_of(alloc: Global, body: &[u8]) -> Result<List<FileText>, Fail>
    ensures { IfOk result IsEntry }
{
    spells_what_is_read();
    match decode(alloc, body) {
        Ok(files) => Ok(files),
        Err(_) => Err("it is a body")?,
    }
}

/// The header that names both files.
const BOTH: &[u8] = b"\x02\x05a.ecf\x05b.ecf";

/// The head of a journal for both files, as it stands behind the header gate, with a closed gate behind it.
fn head(alloc: Global) -> Result<Vec<u8>, Fail>
    ensures { IfOk result (λ header. IsHeaderBytes header.items) }
{
    headers_read_what_is_spelled();
    match decode_header(alloc, BOTH) {
        Ok(names) => Ok(encode_header(alloc, names.as_slice())?),
        Err(_) => Err("it is a header")?,
    }
}

/// Closes the gate in doubt, and puts a head where there is none.
fn begin<D: Disk>(journal: &mut Journal<D>, header: &[u8]) -> Result<(), Failed>
    requires { IsHeaderBytes header.now }
    ensures headed { OnOk result (journal.new.headed ≡ true) }
    ensures sure { OnOk result (journal.new.in_doubt ≡ false) }
{
    journal.settle()?;
    if journal.state() == State::Bare {
        journal.put_header(header)?;
    }
    Ok(())
}

/// Begins a journal with the head of both files, and tells whether that went through.
pub(crate) fn is_begun<D: Disk>(alloc: Global, journal: &mut Journal<D>) -> Result<bool, Fail>
    ensures headed { IfOk result (λ begun. T begun → journal.new.headed ≡ true) }
    ensures sure { IfOk result (λ begun. T begun → journal.new.in_doubt ≡ false) }
{
    let header = head(alloc)?;
    match begin(journal, &header) {
        Ok(()) => Ok(true),
        Err(_) => Ok(false),
    }
}

/// Adds an entry to the list, if it fits.
fn add<D: Disk>(
    journal: &mut Journal<D>,
    encoded: &[u8],
    files: List<FileText>,
) -> Result<bool, Failed>
    requires headed { journal.old.headed ≡ true }
    requires sure { journal.old.in_doubt ≡ false }
    requires entry { IsEntry files }
    requires encoded { encoded.now ≡ behind_gate files ++ 0 ∷ [] }
    ensures headed { OnOk result (journal.new.headed ≡ true) }
    ensures sure { OnOk result (journal.new.in_doubt ≡ false) }
{
    if !journal.fits(encoded.len() - 5) {
        return Ok(false);
    }
    journal.put_body(encoded)?;
    journal.open_gate(files)?;
    Ok(true)
}

/// Adds the entry with this body to the list, and tells whether it was added.
pub(crate) fn is_added<D: Disk>(
    alloc: Global,
    journal: &mut Journal<D>,
    body: &[u8],
) -> Result<bool, Fail>
    requires headed { journal.old.headed ≡ true }
    requires sure { journal.old.in_doubt ≡ false }
    ensures headed { IfOk result (λ added. T added → journal.new.headed ≡ true) }
    ensures sure { IfOk result (λ added. T added → journal.new.in_doubt ≡ false) }
{
    let files = entry_of(alloc, body)?;
    let encoded = encode(alloc, files.as_slice())?;
    match add(journal, &encoded, files) {
        Ok(true) => Ok(true),
        _ => Ok(false),
    }
}

/// What the files `a.ecf` and `b.ecf`, the former journal and the journal hold.
pub(crate) type Held<'a> = (&'a [u8], &'a [u8], &'a [u8], &'a [u8]);

/// The calls that make a disk: a write and a sync of each file.
pub(crate) const MADE: u64 = 8;

/// A disk that holds this, and stops after so many calls behind those that made it. They are calls too, since a disk
/// that is handed its files wants them proved to have four names, and that took minutes.
pub(crate) fn disk_of(alloc: Global, held: &Held<'_>, stop_after: u64) -> Result<MemDisk, Fail> {
    let (first, second, former, journal) = held;
    let last = stop_after.saturating_add(MADE);
    let mut disk = MemDisk::new(alloc, Vec::new(alloc), Vec::new(alloc), Some(last))?;
    put(alloc, &mut disk, "a.ecf", first)?;
    put(alloc, &mut disk, "b.ecf", second)?;
    put(alloc, &mut disk, "journal", former)?;
    put(alloc, &mut disk, "journal2", journal)?;
    Ok(disk)
}

/// Has a new file kept with these bytes.
fn put(alloc: Global, disk: &mut MemDisk, text: &str, bytes: &[u8]) -> Result<(), Fail> {
    let file = name(alloc, text)?;
    if disk.write_at(&file, 0, bytes).is_ok() && disk.sync(&file).is_ok() {
        return Ok(());
    }
    Err("it is kept")?
}

/// Whether a file of a disk has these bytes.
pub(crate) fn has(alloc: Global, disk: &MemDisk, text: &str, bytes: &[u8]) -> Result<bool, Fail> {
    Ok(disk.bytes(&name(alloc, text)?) == bytes)
}

/// Whether `a.ecf` and `b.ecf` have these bytes.
pub(crate) fn have(
    alloc: Global,
    disk: &MemDisk,
    first: &[u8],
    second: &[u8],
) -> Result<bool, Fail> {
    Ok(has(alloc, disk, "a.ecf", first)? && has(alloc, disk, "b.ecf", second)?)
}
