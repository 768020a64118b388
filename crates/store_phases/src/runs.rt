//! A run of commits on a journal, from its opening to its close.
ghost use Rattle.std.specs.Prelude.{◌≡◌, ◌≢◌, ◌++◌, ◌∷◌, [], List, Option, true, false, Ok, Err, IfOk, OnOk, OnErr};
ghost use Rattle.backend_files.specs.WholeFile.{IsWhole, IsShort, IsGiven};
ghost use Rattle.kdb_outside.specs.Crashes.{EveryImage};
ghost use Rattle.kdb_outside.specs.Faults.{HasCause, HasRisen};
ghost use Rattle.kdb_outside.specs.Frames.{GoesOn, OnlyReads};
ghost use Rattle.kdb_outside.specs.Images.{Image};
ghost use Rattle.journal_codec.specs.declared.files.FileText.{FileText as Item};
ghost use Rattle.journal_codec.specs.Entry.{IsEntry};
ghost use Rattle.journal_codec.specs.Forms.{behind_gate};
ghost use Rattle.journal_steps.specs.JournalBytes.{IsOwnFile};
ghost use Rattle.journal_steps.specs.Moments.{LeavesOnly};
ghost use Rattle.intent_journal.specs.Journal.{IsHeaderBytes};
ghost use Rattle.intent_journal.specs.Outcomes.{HasOnly};
ghost use Rattle.journal_steps.specs.Outcomes.{IsEither};
ghost use Rattle.intent_journal.specs.States.{IsCalm, IsSettled};
ghost use Rattle.model_crashes.specs.Runs.{Run, files_of, IsReached, IsAmid, IsOneOf, after_begun, after_commit};
ghost use Rattle.store_phases.specs.Opens.{OpensRun};
ghost use Rattle.store_phases.specs.Resting.{RestsOn};
ghost use Rattle.store_phases.specs.Stores.{IsStore, WhereOfRun};

use crate::phases::{make_clean, store};
use backend_files::{FileFault, FileRead};
use intent_journal::Journal;
use journal_codec::FileText;
use journal_steps::JournalRefused;
use kdb_outside::{Disk, Failed, FileName};
use key_meta::List;
use std::alloc::Global;

/// Opens the journal of a calm disk. A run begins on the files that this leaves, without a commit.
pub fn open<D: Disk>(alloc: Global, disk: D) -> Result<Journal<D>, JournalRefused<D>>
    ensures { OpensRun D.Disk disk result }
{
    Journal::open(alloc, disk)
}

/// Stores an entry of the run, whose files take their contents later, with the header of the run's journal. From `Ok`
/// on every crash leaves it; after `Err` at most one entry is in doubt.
pub fn commit<D: Disk>(
    journal: &mut Journal<D>,
    header: &[u8],
    encoded: &[u8],
    files: List<FileText>,
) -> Result<(), Failed>
    requires entry { IsEntry files }
    requires header { IsHeaderBytes header.now }
    requires encoded { encoded.now ≡ behind_gate files ++ 0 ∷ [] }
    ensures committed { WhereOfRun D.Disk journal.old header.now files (λ opened run. OnOk result (IsStore D.Disk opened journal.new (after_commit run files))) }
    ensures failed { WhereOfRun D.Disk journal.old header.now files (λ opened run.
        OnErr result ((later : Option (List Item)) × IsOneOf later run.doubt files × IsStore D.Disk opened journal.new (after_begun run files later))) }
    ensures any_moment { WhereOfRun D.Disk journal.old header.now files (λ opened run.
        LeavesOnly D.Disk journal.old.disk journal.new.disk (IsAmid (files_of run) run.doubt files)) }
    ensures goes { GoesOn D.Disk journal.old.disk journal.new.disk }
    ensures cause { HasCause (D.faults journal.old.disk) (D.faults journal.new.disk) result }
{
    store(journal, header, encoded, files)
}

/// Brings the entries that wait into their files, and closes a gate in doubt before. False exactly where none waits,
/// and then nothing is done. The run stays: what it stored is stored, and what may come into the files may do so still.
pub fn flush<D: Disk>(journal: &mut Journal<D>) -> Result<bool, Failed>
    ensures none { journal.old.list ≡ [] → (journal.new ≡ journal.old) × (result ≡ Ok false) }
    ensures some { journal.old.list ≢ [] → IfOk result (λ wrote. wrote ≡ true) }
    ensures store { (opened : D) (run : Run) → IsStore D.Disk opened journal.old run
        → IsStore D.Disk opened journal.new run }
    ensures settled { (opened : D) (run : Run) → IsStore D.Disk opened journal.old run → result ≡ Ok true
        → IsSettled (D.may_leave journal.new.disk) (files_of run) }
    ensures any_moment { (opened : D) (run : Run) → IsStore D.Disk opened journal.old run
        → LeavesOnly D.Disk journal.old.disk journal.new.disk (HasOnly (IsEither (files_of run) run.doubt)) }
    ensures recovered { journal.new.recovered ≡ journal.old.recovered }
    ensures goes { GoesOn D.Disk journal.old.disk journal.new.disk }
    ensures cause { HasCause (D.faults journal.old.disk) (D.faults journal.new.disk) result }
{
    if journal.is_empty() {
        return Ok(false);
    }
    make_clean(journal)?;
    Ok(true)
}

/// A file, read whole. Where no entry waits, it is as the run's commits leave it.
pub fn read<D: Disk>(
    journal: &mut Journal<D>,
    alloc: Global,
    file: &FileName,
) -> Result<FileRead, FileFault>
    ensures told { (opened : D) (run : Run) → IsStore D.Disk opened journal.old run → journal.old.list ≡ []
        → ¬ IsOwnFile file.now → IfOk result (IsWhole (files_of run file.now)) }
    ensures seen { D.tells journal.old.disk ≡ true → IfOk result (IsWhole (D.seen journal.old.disk file.now)) }
    ensures short { IfOk result IsShort }
    ensures given { IfOk result (IsGiven D.Disk journal.old.disk file.now) }
    ensures store { (opened : D) (run : Run) → IsStore D.Disk opened journal.old run
        → IsStore D.Disk opened journal.new run }
    ensures reads { OnlyReads D.Disk journal.old.disk journal.new.disk }
    ensures cause { result ≡ Err FileFault.DiskFault
        → HasRisen (D.faults journal.old.disk) (D.faults journal.new.disk) }
{
    journal.read_file(alloc, file)
}

/// Ends the run: what waits is brought into its files, and a gate in doubt closed. A failure is no refusal: what is
/// stored stays so.
pub fn close<D: Disk>(journal: Journal<D>) -> D
    ensures always { (opened : D) (run : Run) → IsStore D.Disk opened journal run
        → LeavesOnly D.Disk opened result (IsReached run.files run.commits run.begun) }
    ensures now { (opened : D) (run : Run) → IsStore D.Disk opened journal run
        → EveryImage (D.may_leave result) (HasOnly (IsEither (files_of run) run.doubt)) }
    ensures settled { (opened : D) (run : Run) → IsStore D.Disk opened journal run
        → ¬ HasRisen (D.faults journal.disk) (D.faults result)
        → IsSettled (D.may_leave result) (files_of run) }
    ensures calm { (opened : D) (run : Run) → IsStore D.Disk opened journal run
        → ¬ HasRisen (D.faults journal.disk) (D.faults result)
        → (files : Image) (doubt : Option (List Item)) → IsEither files doubt (files_of run)
        → IsCalm (D.seen result) (D.may_leave result) files doubt }
    ensures rests { (opened : D) (run : Run) → IsStore D.Disk opened journal run
        → RestsOn D.Disk result (files_of run) run.doubt }
    ensures goes { GoesOn D.Disk journal.disk result }
{
    let mut journal = journal;
    let _ = make_clean(&mut journal);
    journal.into_disk()
}
