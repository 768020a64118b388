//! What stands before a list: in `journal` nothing, and in `journal2` a head, whose header names the files of the
//! entries.
ghost use Rattle.std.specs.Prelude.{◌≡◌, ◌≢◌, ◌≤◌, ◌+◌, ℕ, length, take, drop, Ok, Err, None, IfOk, true};
ghost use Rattle.kdb_outside.specs.Faults.{HasCause, HasRisen};
ghost use Rattle.kdb_outside.specs.Frames.{OnlyReads};
ghost use Rattle.journal_codec.specs.Header.{longest_header, spelled_header};
ghost use Rattle.journal_lists.specs.Heads.{head_start, header_size, header_or_place};
ghost use Rattle.journal_lists.specs.Journals.{head_in};
ghost use Rattle.journal_lists.specs.Starts.{start_of_head, IsBefore, told_fault};

use crate::limits::{HEAD_START, LONGEST_HEADER, OPEN, VERSION};
use journal_codec::{DecodeFault, decode_header};
use journal_steps::JournalFault;
use kdb_outside::{Disk, Failed, FileName};
use key_meta::List;
use std::alloc::Global;

/// What stands before the first gate of a list: the files that a header names, and the place of the gate.
#[derive(Drop)]
pub(crate) struct Head {
    pub(crate) names: Option<List<FileName>>,
    pub(crate) start: u64,
}

/// The version that the first bytes of `journal2` tell, and the length of its header.
#[derive(Clone, Copy)]
struct Start {
    version: u8,
    size: u32,
}

/// No head.
pub(crate) fn no_head() -> Head
    ensures names { result.names ≡ None }
    ensures before { IsBefore result }
{
    Head {
        names: None,
        start: 0,
    }
}

/// The head of `journal2`, if its gate is open.
pub(crate) fn read_head<D: Disk>(
    alloc: Global,
    disk: &mut D,
    journal: &FileName,
) -> Result<Head, JournalFault>
    ensures found { D.tells disk.old ≡ true
        → IfOk result (λ head. head_in (D.seen disk.old journal.now) ≡ Ok head.names) }
    ensures bad { D.tells disk.old ≡ true → (at : ℕ) → result ≡ Err (JournalFault.BadJournal at)
        → head_in (D.seen disk.old journal.now) ≡ Err (JournalFault.BadJournal at) }
    ensures unknown { D.tells disk.old ≡ true → (version : ℕ) → result ≡ Err (JournalFault.UnknownVersion version)
        → head_in (D.seen disk.old journal.now) ≡ Err (JournalFault.UnknownVersion version) }
    ensures before { IfOk result IsBefore }
    ensures sized { D.tells disk.old ≡ true
        → IfOk result (λ head. head.names ≢ None → head.start ≡ head_start + header_size (D.seen disk.old journal.now)) }
    ensures reads { OnlyReads D.Disk disk.old disk.new }
    ensures cause { result ≡ Err JournalFault.DiskFault → HasRisen (D.faults disk.old) (D.faults disk.new) }
{
    let Some(start) = read_start(disk, journal)? else {
        return Ok(no_head());
    };
    if start.version != VERSION {
        return Err(JournalFault::UnknownVersion {
            version: start.version,
        });
    }
    if start.size > LONGEST_HEADER {
        return Err(JournalFault::BadJournal { at: 2 });
    }
    let there = read_header(alloc, disk, journal, start.size)?;
    match names_of(alloc, start.size, &there) {
        Ok(names) => Ok(Head {
            names: Some(names),
            start: HEAD_START as u64 + start.size as u64,
        }),
        Err(fault) => Err(told(HEAD_START as u64, fault)),
    }
}

/// What the first bytes tell, if the gate is open.
fn read_start<D: Disk>(disk: &mut D, journal: &FileName) -> Result<Option<Start>, Failed>
    ensures told { D.tells disk.old ≡ true
        → IfOk result (λ start. start ≡ start_of_head (D.seen disk.old journal.now)) }
    ensures reads { OnlyReads D.Disk disk.old disk.new }
    ensures cause { HasCause (D.faults disk.old) (D.faults disk.new) result }
{
    let mut head = [0; HEAD_START];
    let count = disk.read_at(journal, 0, &mut head)?;
    Ok(start_in(&head[..count]))
}

fn start_in(head: &[u8]) -> Option<Start>
    requires { length head.now ≤ 6 }
    ensures { result ≡ start_of_head head.now }
{
    if head.len() < HEAD_START || head[0] != OPEN {
        return None;
    }
    let size = u32::from_le_bytes([head[2], head[3], head[4], head[5]]);
    Some(Start {
        version: head[1],
        size,
    })
}

/// The bytes of a header of this size, or those that are there.
fn read_header<D: Disk>(
    alloc: Global,
    disk: &mut D,
    journal: &FileName,
    size: u32,
) -> Result<Vec<u8>, JournalFault>
    ensures told { D.tells disk.old ≡ true
        → IfOk result (λ there. there.items ≡ take size (drop head_start (D.seen disk.old journal.now))) }
    ensures within { IfOk result (λ there. length there.items ≤ size) }
    ensures reads { OnlyReads D.Disk disk.old disk.new }
    ensures own { (at : ℕ) → result ≡ Err (JournalFault.BadJournal at) → ⊥ }
    ensures known { (version : ℕ) → result ≡ Err (JournalFault.UnknownVersion version) → ⊥ }
    ensures cause { result ≡ Err JournalFault.DiskFault → HasRisen (D.faults disk.old) (D.faults disk.new) }
{
    let mut there = vec![in alloc; 0; size as usize]?;
    let count = disk.read_at(journal, HEAD_START as u64, &mut there)?;
    there.truncate(count);
    Ok(there)
}

/// The files that a header of this size names, given what is there of it, or the place in it where it isn't whole.
fn names_of(alloc: Global, size: u32, there: &[u8]) -> Result<List<FileName>, DecodeFault>
    requires { size ≤ longest_header }
    ensures found { IfOk result (λ names. header_or_place size there.now ≡ Ok names) }
    ensures bad { (at : ℕ) → result ≡ Err (DecodeFault.BadJournal at)
        → header_or_place size there.now ≡ Err (head_start + at) }
    ensures sized { IfOk result (λ names. length (spelled_header names) ≡ size) }
    ensures within { (at : ℕ) → result ≡ Err (DecodeFault.BadJournal at) → at ≤ length there.now }
{
    match decode_header(alloc, there) {
        Ok(names) => {
            if there.len() == size as usize {
                Ok(names)
            } else {
                Err(DecodeFault::BadJournal {
                    at: there.len() as u64,
                })
            }
        }
        Err(fault) => Err(fault),
    }
}

/// The fault of bytes that begin so many bytes behind the first one that is counted.
pub(crate) fn told(before: u64, fault: DecodeFault) -> JournalFault
    requires before { before ≤ 67206481 }
    requires near { (at : ℕ) → fault ≡ DecodeFault.BadJournal at → at ≤ 67200005 }
    ensures { result ≡ told_fault before fault }
{
    match fault {
        DecodeFault::BadJournal { at } => JournalFault::BadJournal { at: before + at },
        DecodeFault::Memory => JournalFault::Memory,
    }
}
