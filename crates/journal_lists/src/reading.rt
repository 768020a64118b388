//! The list that a journal holds: from each gate that is open on, its length, its body, and the next gate where the
//! body says so.
ghost use Rattle.std.specs.Prelude.{◌≡◌, ◌≤◌, ◌+◌, ℕ, [], length, take, drop, Ok, Err, IfOk, OnOk, true};
ghost use Rattle.std.specs.List.{AllByRecursion};
ghost use Rattle.std.specs.Vec.{vec_capacity};
ghost use Rattle.kdb_outside.specs.Faults.{HasCause, HasRisen};
ghost use Rattle.kdb_outside.specs.Frames.{OnlyReads};
ghost use Rattle.journal_codec.specs.Entry.{IsEntry};
ghost use Rattle.journal_codec.specs.Forms.{followed as is_followed};
ghost use Rattle.journal_steps.specs.JournalBytes.{open_length};
ghost use Rattle.journal_lists.specs.Grammar.{most_entries, last_place, head_size, entry_or_place};
ghost use Rattle.journal_lists.specs.Journals.{former_in, journal_in, BeginsAt};
ghost use Rattle.journal_lists.specs.Readings.{rest_in, Adds};
ghost use Rattle.journal_lists.specs.Rules.{rule_of};
ghost use Rattle.journal_lists.specs.Starts.{IsBefore, from_gate, body_at};

use crate::decoding::{before_body, entry_of, late_place};
use crate::limits::{HEAD, HEAD_START, LAST_PLACE, MOST_ENTRIES};
use crate::starts::{Head, no_head, read_head, told};
use journal_codec::{FileText, followed};
use journal_steps::{JournalFault, length_in};
use kdb_outside::{Disk, Failed, FileName};
use key_meta::List;
use std::alloc::Global;

/// The open entries of a journal, in room for as many as a list can have, and the place of its first gate in bytes.
#[derive(Drop)]
pub struct Found {
    pub start: u64,
    pub list: Vec<List<FileText>>,
}

/// The open entries of `journal`, which the former program wrote, in room for as many as a list can have. Err:
/// BadJournal with the place in the first body that isn't whole; DiskFault where the disk failed; Memory where memory
/// is out.
pub fn read_former<D: Disk>(
    alloc: Global,
    disk: &mut D,
    journal: &FileName,
) -> Result<Vec<List<FileText>>, JournalFault>
    ensures found { D.tells disk.old ≡ true
        → IfOk result (λ list. former_in (D.seen disk.old journal.now) ≡ Ok list.items) }
    ensures bad { D.tells disk.old ≡ true → (at : ℕ) → result ≡ Err (JournalFault.BadJournal at)
        → former_in (D.seen disk.old journal.now) ≡ Err (JournalFault.BadJournal at) }
    ensures known { (version : ℕ) → result ≡ Err (JournalFault.UnknownVersion version) → ⊥ }
    ensures entries { IfOk result (λ list. AllByRecursion IsEntry list.items) }
    ensures room { IfOk result (λ list. most_entries ≤ vec_capacity list) }
    ensures reads { OnlyReads D.Disk disk.old disk.new }
    ensures cause { result ≡ Err JournalFault.DiskFault → HasRisen (D.faults disk.old) (D.faults disk.new) }
{
    let mut list = Vec::with_capacity(alloc, MOST_ENTRIES)?;
    let head = no_head();
    read_rest(alloc, disk, journal, &head, 0, MOST_ENTRIES, &mut list)?;
    Ok(list)
}

/// The open entries of `journal2`, and the place of its list's first gate. A file that is too short for a head is asked
/// for its length alone. Err: UnknownVersion where the gate of another version's header is open; BadJournal with the
/// place, from the file's first byte on, where the head or the first open entry isn't whole; DiskFault where the disk
/// failed; Memory where memory is out.
pub fn read_journal<D: Disk>(
    alloc: Global,
    disk: &mut D,
    journal: &FileName,
) -> Result<Found, JournalFault>
    ensures found { D.tells disk.old ≡ true
        → IfOk result (λ found. journal_in (D.seen disk.old journal.now) ≡ Ok found.list.items) }
    ensures begins { D.tells disk.old ≡ true
        → IfOk result (λ found. BeginsAt (D.seen disk.old journal.now) found.start) }
    ensures bad { D.tells disk.old ≡ true → (at : ℕ) → result ≡ Err (JournalFault.BadJournal at)
        → journal_in (D.seen disk.old journal.now) ≡ Err (JournalFault.BadJournal at) }
    ensures unknown { D.tells disk.old ≡ true → (version : ℕ) → result ≡ Err (JournalFault.UnknownVersion version)
        → journal_in (D.seen disk.old journal.now) ≡ Err (JournalFault.UnknownVersion version) }
    ensures entries { IfOk result (λ found. AllByRecursion IsEntry found.list.items) }
    ensures room { IfOk result (λ found. most_entries ≤ vec_capacity found.list) }
    ensures reads { OnlyReads D.Disk disk.old disk.new }
    ensures cause { result ≡ Err JournalFault.DiskFault → HasRisen (D.faults disk.old) (D.faults disk.new) }
{
    let mut list = Vec::with_capacity(alloc, MOST_ENTRIES)?;
    if disk.length(journal)? < HEAD_START as u64 {
        return Ok(Found { start: 0, list });
    }
    let head = read_head(alloc, disk, journal)?;
    if head.names.is_none() {
        return Ok(Found { start: 0, list });
    }
    read_rest(alloc, disk, journal, &head, 0, MOST_ENTRIES, &mut list)?;
    Ok(Found {
        start: head.start,
        list,
    })
}

/// Appends the open entries from a gate at this place of the list on, of which so many are left that may be whole.
fn read_rest<D: Disk>(
    alloc: Global,
    disk: &mut D,
    journal: &FileName,
    head: &Head,
    place: u64,
    left: usize,
    list: &mut Vec<List<FileText>>,
) -> Result<(), JournalFault>
    requires head { IsBefore head.now }
    requires place { place ≤ last_place }
    requires room { length list.old.items + left ≤ vec_capacity list.old }
    requires entries { AllByRecursion IsEntry list.old.items }
    ensures found { D.tells disk.old ≡ true
        → OnOk result (Adds (rest_in (rule_of head.now.names) left place (from_gate head.now place (D.seen disk.old journal.now))) list.old.items list.new.items) }
    ensures bad { D.tells disk.old ≡ true → (at : ℕ) → result ≡ Err (JournalFault.BadJournal at)
        → rest_in (rule_of head.now.names) left place (from_gate head.now place (D.seen disk.old journal.now)) ≡ Err at }
    ensures known { (version : ℕ) → result ≡ Err (JournalFault.UnknownVersion version) → ⊥ }
    ensures entries { AllByRecursion IsEntry list.new.items }
    ensures room { vec_capacity list.new ≡ vec_capacity list.old }
    ensures reads { OnlyReads D.Disk disk.old disk.new }
    ensures cause { result ≡ Err JournalFault.DiskFault → HasRisen (D.faults disk.old) (D.faults disk.new) }
{
    let Some(size) = read_length(disk, journal, head.start + place)? else {
        return Ok(());
    };
    let next = place + HEAD as u64 + size as u64;
    // The limits count before the body, whatever it holds.
    if left == 0 || next > LAST_PLACE {
        return Err(JournalFault::BadJournal {
            at: late_place(head, place),
        });
    }
    let found = read_entry(alloc, disk, journal, head, place, size)?;
    let Whole { entry, goes_on } = found;
    list.push_reserved(entry);
    if !goes_on {
        return Ok(());
    }
    read_rest(alloc, disk, journal, head, next, left - 1, list)
}

/// An entry, and whether another gate stands behind it.
#[derive(Drop)]
struct Whole {
    entry: List<FileText>,
    goes_on: bool,
}

/// The entry behind a gate at this place of the list whose body has this size.
fn read_entry<D: Disk>(
    alloc: Global,
    disk: &mut D,
    journal: &FileName,
    head: &Head,
    place: u64,
    size: u32,
) -> Result<Whole, JournalFault>
    requires head { IsBefore head.now }
    requires within { place + head_size + size ≤ last_place }
    ensures found { D.tells disk.old ≡ true
        → IfOk result (λ found. entry_or_place (rule_of head.now.names) place size (body_at head.now place size (D.seen disk.old journal.now)) ≡ Ok found.entry) }
    ensures goes_on { D.tells disk.old ≡ true
        → IfOk result (λ found. found.goes_on ≡ is_followed (body_at head.now place size (D.seen disk.old journal.now))) }
    ensures bad { D.tells disk.old ≡ true → (at : ℕ) → result ≡ Err (JournalFault.BadJournal at)
        → entry_or_place (rule_of head.now.names) place size (body_at head.now place size (D.seen disk.old journal.now))
        ≡ Err at }
    ensures known { (version : ℕ) → result ≡ Err (JournalFault.UnknownVersion version) → ⊥ }
    ensures entry { IfOk result (λ found. IsEntry found.entry) }
    ensures reads { OnlyReads D.Disk disk.old disk.new }
    ensures cause { result ≡ Err JournalFault.DiskFault → HasRisen (D.faults disk.old) (D.faults disk.new) }
{
    let body = read_body(alloc, disk, journal, head.start + place, size)?;
    match entry_of(alloc, &head.names, size, &body) {
        Ok(entry) => {
            let goes_on = followed(&body);
            Ok(Whole { entry, goes_on })
        }
        Err(fault) => Err(told(before_body(head, place), fault)),
    }
}

/// The length that stands behind an open gate at this place of the file.
fn read_length<D: Disk>(disk: &mut D, journal: &FileName, at: u64) -> Result<Option<u32>, Failed>
    ensures told { D.tells disk.old ≡ true
        → IfOk result (λ size. size ≡ open_length (drop at (D.seen disk.old journal.now))) }
    ensures reads { OnlyReads D.Disk disk.old disk.new }
    ensures cause { HasCause (D.faults disk.old) (D.faults disk.new) result }
{
    let mut head = [0; HEAD];
    let count = disk.read_at(journal, at, &mut head)?;
    Ok(length_in(&head[..count]))
}

/// The bytes of a body of this size behind a gate at this place of the file, or those that are there.
fn read_body<D: Disk>(
    alloc: Global,
    disk: &mut D,
    journal: &FileName,
    at: u64,
    size: u32,
) -> Result<Vec<u8>, JournalFault>
    requires { at ≤ 67206476 }
    ensures told { D.tells disk.old ≡ true
        → IfOk result (λ there. there.items ≡ take size (drop (at + head_size) (D.seen disk.old journal.now))) }
    ensures within { IfOk result (λ there. length there.items ≤ size) }
    ensures reads { OnlyReads D.Disk disk.old disk.new }
    ensures own { (place : ℕ) → result ≡ Err (JournalFault.BadJournal place) → ⊥ }
    ensures known { (version : ℕ) → result ≡ Err (JournalFault.UnknownVersion version) → ⊥ }
    ensures cause { result ≡ Err JournalFault.DiskFault → HasRisen (D.faults disk.old) (D.faults disk.new) }
{
    let mut there = vec![in alloc; 0; size as usize]?;
    let count = disk.read_at(journal, at + HEAD as u64, &mut there)?;
    there.truncate(count);
    Ok(there)
}
