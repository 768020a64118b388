//! The former program's journal: its open entries are brought into their files, and then it is closed for good.
ghost use Rattle.std.specs.Prelude.{◌≡◌, ◌≤◌, ◌<◌, [], length, true, Ok, Err, IfOk};
ghost use Rattle.std.specs.List.{AllByRecursion};
ghost use Rattle.kdb_outside.specs.Faults.{HasCause, HasRisen};
ghost use Rattle.kdb_outside.specs.Frames.{GoesOn};
ghost use Rattle.journal_codec.specs.Entry.{IsEntry, journal_name};
ghost use Rattle.intent_journal.specs.Openings.{RetiresFormer, items_of};
ghost use Rattle.intent_journal.specs.Recovering.{Retires};

use crate::recovering::recover;
use journal_codec::FileText;
use journal_lists::{HEAD, read_former};
use journal_steps::JournalFault;
use kdb_outside::{Disk, Failed, FileName};
use key_meta::List;
use std::alloc::Global;

/// Retires the former journal of a disk, if there is one: its open entries, which are answered, come into their files,
/// and it is cut to its closed gate. BadJournal where an open entry isn't whole, with the place in its body, and then
/// nothing is written.
pub(crate) fn retire<D: Disk>(
    alloc: Global,
    disk: &mut D,
    former: &FileName,
) -> Result<Vec<List<FileText>>, JournalFault>
    requires { former.now ≡ journal_name }
    ensures retires { RetiresFormer D.Disk disk.old disk.new (items_of result) }
{
    if disk.length(former)? < HEAD as u64 {
        return Ok(Vec::new(alloc));
    }
    let list = read_former(alloc, disk, former)?;
    close_former(disk, former, &list)?;
    Ok(list)
}

/// Brings the open entries of the former journal into their files, closes its first gate and cuts it off behind that.
fn close_former<D: Disk>(
    disk: &mut D,
    former: &FileName,
    list: &[List<FileText>],
) -> Result<(), Failed>
    requires name { former.now ≡ journal_name }
    requires entries { AllByRecursion IsEntry list.now }
    ensures retires { D.tells disk.old ≡ true → Retires D.Disk disk.old disk.new result list.now }
    ensures goes { GoesOn D.Disk disk.old disk.new }
    ensures cause { HasCause (D.faults disk.old) (D.faults disk.new) result }
{
    recover(disk, former, 0, list)?;
    // The byte that stays is the closed gate, so no moment of the cut can open it.
    disk.cut(former, 1)?;
    disk.sync(former)
}
