//! The files of all mounts, each read once through the journal.
ghost use Rattle.std.specs.Prelude.{◌≡◌, ◌<◌, ◌+◌, ℕ, true, [], length, Err, IfOk, OnOk, MatchResult};
ghost use Rattle.kdb_outside.specs.Faults.{HasRisen};
ghost use Rattle.mount_table.specs.Table.{own_mount};
ghost use Rattle.mounted_files.specs.Begins.{Begins};
ghost use Rattle.mounted_files.specs.Begun.{others};
ghost use Rattle.mounted_files.specs.Opening.{IsOpened};
ghost use Rattle.mounted_files.specs.Writable.{AllCanBeWritten, CanBeWrittenSoFar};
ghost use Rattle.store_core.specs.Faults.{RefusesStore};
ghost use Rattle.store_core.specs.Frames.{OnlyReadsFiles};

use crate::OpenFault;
use backend_files::FileFault;
use intent_journal::Journal;
use kdb_outside::Disk;
use mount_table::own_file;
use mounted_files::{Mounted, Opening};
use std::alloc::Global;
use storage_api::Formats;

/// Reads the table's own file and then the file of each other mount, each file once. Whatever the disk tells, what a
/// good file held can be written again.
pub(crate) fn mount_files<D: Disk, F: Formats>(
    alloc: Global,
    journal: &mut Journal<D>,
    formats: &F,
) -> Result<Mounted, OpenFault>
    ensures told { D.tells journal.old.disk ≡ true →
        MatchResult result (IsOpened F.reads F.is_bad_at (D.seen journal.old.disk)) (RefusesStore F.reads F.is_bad_at (D.seen journal.old.disk own_mount.file)) }
    ensures storable { IfOk result (AllCanBeWritten F.is_storable) }
    ensures cause { result ≡ Err OpenFault.DiskFault
        → HasRisen (D.faults journal.old.disk) (D.faults journal.new.disk) }
    ensures own { ((at : ℕ) → result ≡ Err (OpenFault.BadJournal at) → ⊥)
        × ((version : ℕ) → result ≡ Err (OpenFault.UnknownVersion version) → ⊥) }
    ensures reads { OnlyReadsFiles D.Disk journal.old journal.new }
{
    let opening = begin(alloc, journal, formats)?;
    Ok(mount_others(alloc, journal, formats, opening)?)
}

/// Reads the table's own file, which begins the opening.
fn begin<D: Disk, F: Formats>(
    alloc: Global,
    journal: &mut Journal<D>,
    formats: &F,
) -> Result<Opening, OpenFault>
    ensures told { D.tells journal.old.disk ≡ true →
        MatchResult result (Begins F.reads F.is_bad_at (D.seen journal.old.disk)) (RefusesStore F.reads F.is_bad_at (D.seen journal.old.disk own_mount.file)) }
    ensures none { IfOk result (λ opening. opening.files ≡ []) }
    ensures storable { IfOk result (CanBeWrittenSoFar F.is_storable) }
    ensures cause { result ≡ Err OpenFault.DiskFault
        → HasRisen (D.faults journal.old.disk) (D.faults journal.new.disk) }
    ensures own { ((at : ℕ) → result ≡ Err (OpenFault.BadJournal at) → ⊥)
        × ((version : ℕ) → result ≡ Err (OpenFault.UnknownVersion version) → ⊥) }
    ensures reads { OnlyReadsFiles D.Disk journal.old journal.new }
{
    let file = own_file(alloc)?;
    let read = journal.read_file(alloc, &file)?;
    Ok(Opening::new(alloc, formats, &read)?)
}

/// Reads the file of each other mount of the table.
fn mount_others<D: Disk, F: Formats>(
    alloc: Global,
    journal: &mut Journal<D>,
    formats: &F,
    opening: Opening,
) -> Result<Mounted, FileFault>
    requires none { opening.files ≡ [] }
    ensures told { D.tells journal.old.disk ≡ true → Begins F.reads F.is_bad_at (D.seen journal.old.disk) opening
        → IfOk result (IsOpened F.reads F.is_bad_at (D.seen journal.old.disk)) }
    ensures storable { CanBeWrittenSoFar F.is_storable opening → IfOk result (AllCanBeWritten F.is_storable) }
    ensures cause { result ≡ Err FileFault.DiskFault
        → HasRisen (D.faults journal.old.disk) (D.faults journal.new.disk) }
    ensures reads { OnlyReadsFiles D.Disk journal.old journal.new }
{
    let mut opening = opening;
    let count = opening.len();
    for _added in 0..count {
        add_next(alloc, journal, formats, &mut opening)?;
    }
    match opening.mounted(formats) {
        Ok(mounted) => Ok(mounted),
        Err(_) => Err(FileFault::Memory),
    }
}

/// Adds the file of the next mount.
fn add_next<D: Disk, F: Formats>(
    alloc: Global,
    journal: &mut Journal<D>,
    formats: &F,
    opening: &mut Opening,
) -> Result<(), FileFault>
    requires { length opening.old.files < length (others opening.old) }
    ensures step { D.tells journal.old.disk ≡ true → Begins F.reads F.is_bad_at (D.seen journal.old.disk) opening.old
        → OnOk result (Begins F.reads F.is_bad_at (D.seen journal.old.disk) opening.new) }
    ensures storable { CanBeWrittenSoFar F.is_storable opening.old
        → OnOk result (CanBeWrittenSoFar F.is_storable opening.new) }
    ensures count { OnOk result (length opening.new.files ≡ length opening.old.files + 1) }
    ensures others { others opening.new ≡ others opening.old }
    ensures cause { result ≡ Err FileFault.DiskFault
        → HasRisen (D.faults journal.old.disk) (D.faults journal.new.disk) }
    ensures reads { OnlyReadsFiles D.Disk journal.old journal.new }
{
    let Some(mount) = opening.next() else {
        unreachable!()
    };
    let read = journal.read_file(alloc, &mount.file)?;
    match opening.add(alloc, formats, &read) {
        Ok(()) => Ok(()),
        Err(_) => Err(FileFault::Memory),
    }
}
