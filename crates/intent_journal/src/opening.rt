//! The opening of a journal: open entries are brought into their files before anything else happens.
ghost use Rattle.std.specs.Prelude.{◌≡◌, ◌≢◌, ◌≤◌, [], length, true, Ok, IfOk, IsOk};
ghost use Rattle.std.specs.List.{AllByRecursion};
ghost use Rattle.std.specs.Vec.{vec_capacity};
ghost use Rattle.kdb_outside.specs.Faults.{HasCause};
ghost use Rattle.kdb_outside.specs.Frames.{GoesOn};
ghost use Rattle.journal_codec.specs.Entry.{IsEntry, journal_name, journal2_name};
ghost use Rattle.journal_lists.specs.Grammar.{most_entries};
ghost use Rattle.intent_journal.specs.Openings.{OpensBehind, OpensList, entries_of, items_of};
ghost use Rattle.intent_journal.specs.Recovering.{Recovers};

use crate::recovering::recover;
use crate::retiring::retire;
use journal_codec::FileText;
use journal_lists::{Found, read_journal};
use journal_steps::JournalFault;
use kdb_outside::{Disk, Failed, FileName};
use key_meta::List;
use std::alloc::Global;

/// Opens the journal of a disk: retires the former one, and then reads the open entries of `journal2` and brings them
/// into their files. Where the former one is too short for an entry and there is no open one, the disk is only read.
/// The answer has the entries that were found in each, the latter in room for as many as a list can have. BadJournal
/// where an open entry or the head of `journal2` isn't whole, with its place; UnknownVersion where `journal2` has
/// another version; DiskFault where the disk failed; Memory where memory is out.
pub(crate) fn open<D: Disk>(
    alloc: Global,
    disk: &mut D,
    former: &FileName,
    journal: &FileName,
) -> Result<(Vec<List<FileText>>, Vec<List<FileText>>), JournalFault>
    requires former { former.now ≡ journal_name }
    requires name { journal.now ≡ journal2_name }
    ensures room { IfOk result (λ lists. most_entries ≤ vec_capacity lists.1) }
    ensures opens { OpensList D.Disk disk.old disk.new (entries_of result) }
{
    let retired = retire(alloc, disk, former)?;
    let list = open_journal(alloc, disk, journal)?;
    Ok((retired, list))
}

/// Opens `journal2`, behind the retiring of the former journal.
fn open_journal<D: Disk>(
    alloc: Global,
    disk: &mut D,
    journal: &FileName,
) -> Result<Vec<List<FileText>>, JournalFault>
    requires name { journal.now ≡ journal2_name }
    ensures room { IfOk result (λ list. most_entries ≤ vec_capacity list) }
    ensures opens { OpensBehind D.Disk disk.old disk.new (items_of result) }
{
    let found = read_journal(alloc, disk, journal)?;
    let Found { start, list } = found;
    recover_any(disk, journal, start, &list)?;
    Ok(list)
}

/// Recovers open entries, if there are any, whose first gate stands at this place.
fn recover_any<D: Disk>(
    disk: &mut D,
    journal: &FileName,
    at: u64,
    list: &[List<FileText>],
) -> Result<(), Failed>
    requires name { journal.now ≡ journal2_name }
    requires entries { AllByRecursion IsEntry list.now }
    requires there { D.tells disk.old ≡ true → list.now ≢ [] → at ≤ length (D.seen disk.old journal.now) }
    ensures none { list.now ≡ [] → (disk.new ≡ disk.old) × IsOk result }
    ensures recovers { D.tells disk.old ≡ true → list.now ≢ []
        → Recovers D.Disk disk.old disk.new result journal2_name at list.now }
    ensures goes { GoesOn D.Disk disk.old disk.new }
    ensures cause { HasCause (D.faults disk.old) (D.faults disk.new) result }
{
    if list.is_empty() {
        return Ok(());
    }
    recover(disk, journal, at, list)
}
