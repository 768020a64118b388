//! Two entries on their way into the list of a journal, and the list on its way into its files.
ghost use Rattle.std.specs.Prelude.{◌≡◌, true, false, OnOk};

use crate::entries::{FIRST, SECOND, has, have, is_added, is_begun};
use disk_memory::MemDisk;
use intent_journal::Journal;
use kdb_outside::{Disk, Failed};
use std::alloc::Global;
use std::test::Fail;

/// The journal that had both, behind its closing.
const CLOSED: &[u8] =
    b"\x01\x02\x0d\x00\x00\x00\x02\x05a.ecf\x05b.ecf\x00\x17\x00\x00\x00\x82\x05a.ecf\x01\x00\x00\x001\x05b.ecf\x01\x00\x00\x001\x01\x0c\x00\x00\x00\x81\x05b.ecf\x01\x00\x00\x002\x00";

/// Gives each file of the list its content by its number, and closes the list.
fn bring_in<D: Disk>(journal: &mut Journal<D>) -> Result<(), Failed>
    requires headed { journal.old.headed ≡ true }
    requires sure { journal.old.in_doubt ≡ false }
    ensures { OnOk result (journal.new.in_doubt ≡ false) }
{
    let count = journal.pending();
    for i in 0..count {
        journal.apply(i)?;
    }
    journal.close_gate()
}

/// Whether the files of the list get their contents, and the list is closed.
fn is_brought_in(journal: &mut Journal<MemDisk>, by_number: bool) -> bool
    requires headed { journal.old.headed ≡ true }
    requires sure { journal.old.in_doubt ≡ false }
{
    let brought = if by_number {
        bring_in(journal)
    } else {
        journal.finish()
    };
    brought.is_ok()
}

/// Whether both entries go into the list of a journal, and the list into its files.
pub(crate) fn is_stored(
    alloc: Global,
    journal: &mut Journal<MemDisk>,
    by_number: bool,
) -> Result<bool, Fail> {
    if !is_begun(alloc, journal)?
        || !is_added(alloc, journal, FIRST)?
        || !is_added(alloc, journal, SECOND)?
    {
        return Ok(false);
    }
    Ok(is_brought_in(journal, by_number))
}

/// Whether both are stored on an empty disk, and leave these bytes in the journal.
fn leaves(alloc: Global, by_number: bool, bytes: &[u8]) -> Result<bool, Fail> {
    let disk = MemDisk::new(alloc, Vec::new(alloc), Vec::new(alloc), None)?;
    let Ok(mut journal) = Journal::open(alloc, disk) else {
        return Err("it opens")?;
    };
    let stored = is_stored(alloc, &mut journal, by_number)?;
    let disk = journal.into_disk();
    Ok(stored && have(alloc, &disk, b"1", b"2")? && has(alloc, &disk, "journal2", bytes)?)
}

#[test]
fn a_list_goes_into_its_files(rt: HostRuntime) -> Result<(), Fail> {
    assert!(rt; leaves(rt.alloc(), true, CLOSED)?);
    assert!(rt; leaves(rt.alloc(), false, CLOSED)?);
    Ok(())
}
