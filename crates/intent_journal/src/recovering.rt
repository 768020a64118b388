//! Open entries of one of the journal's files on their way into their own, before anything else happens.
ghost use Rattle.std.specs.Prelude.{◌≡◌, ◌≤◌, length, true};
ghost use Rattle.std.specs.List.{AllByRecursion};
ghost use Rattle.kdb_outside.specs.Faults.{HasCause};
ghost use Rattle.kdb_outside.specs.Frames.{GoesOn};
ghost use Rattle.journal_codec.specs.Entry.{IsEntry};
ghost use Rattle.journal_steps.specs.JournalBytes.{IsOwnFile};
ghost use Rattle.intent_journal.specs.Recovering.{Recovers};

use crate::bringing::bring_in;
use journal_codec::FileText;
use journal_lists::CLOSED;
use journal_steps::write_through;
use kdb_outside::{Disk, Failed, FileName};
use key_meta::List;

/// Brings the open entries of a file of the journal into their files, and closes the gate at this place, which stands
/// before them.
pub(crate) fn recover<D: Disk>(
    disk: &mut D,
    name: &FileName,
    at: u64,
    list: &[List<FileText>],
) -> Result<(), Failed>
    requires own { IsOwnFile name.now }
    requires entries { AllByRecursion IsEntry list.now }
    requires there { D.tells disk.old ≡ true → at ≤ length (D.seen disk.old name.now) }
    ensures recovers { D.tells disk.old ≡ true → Recovers D.Disk disk.old disk.new result name.now at list.now }
    ensures goes { GoesOn D.Disk disk.old disk.new }
    ensures cause { HasCause (D.faults disk.old) (D.faults disk.new) result }
{
    // The gates that were read may be pending: while they are, the files have to stay as they are.
    disk.sync(name)?;
    bring_in(disk, list)?;
    write_through(disk, name, at, &[CLOSED])
}
