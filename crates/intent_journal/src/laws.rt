//! Facts about the two files of a journal. Nothing here runs: each function stands for its contract.
ghost use Rattle.std.specs.Prelude.{◌≡◌, ◌<◌, ◌↔◌, ℕ, List, length, Option, Some, None, Result, Ok, Err, IfOk, OnOk, true};
ghost use Rattle.kdb_outside.specs.Images.{Image};
ghost use Rattle.journal_codec.specs.declared.files.FileText.{FileText as Item};
ghost use Rattle.journal_codec.specs.Entry.{journal_name, journal2_name};
ghost use Rattle.journal_lists.specs.Heads.{head_start};
ghost use Rattle.journal_lists.specs.Journals.{ReadsFormer, BreaksFormer, with_fault, former_in, journal_in};
ghost use Rattle.journal_steps.specs.declared.faults.JournalFault.{JournalFault as Fault};
ghost use Rattle.journal_steps.specs.declared.faults.JournalRefused.{JournalRefused as Refused};
ghost use Rattle.journal_steps.specs.BadJournals.{opened_reading};
ghost use Rattle.journal_steps.specs.Outcomes.{with_entries, SameFiles, IsEither, HasOutcome as HadOutcome};
ghost use Rattle.journal_steps.specs.Readings.{ReadsAs as ReadAs, IsBroken as WasBroken};
ghost use Rattle.journal_steps.specs.States.{IsCalm as WasCalm};
ghost use Rattle.intent_journal.specs.Journal.{JournalValue};
ghost use Rattle.intent_journal.specs.OldForm.{IsOldForm};
ghost use Rattle.intent_journal.specs.Opened.{found_in, bad_place, unknown_version, open_list, opened_files, IsFresh};
ghost use Rattle.intent_journal.specs.Openings.{WhereCalm};
ghost use Rattle.intent_journal.specs.Opens.{fault_of, OpensJournal, HoldsOpened};
ghost use Rattle.intent_journal.specs.Outcomes.{ReadsAs, IsBroken, HasOutcome};
ghost use Rattle.intent_journal.specs.States.{IsListed, IsCalm};

use journal_steps::JournalFault;
use kdb_outside::Disk;

/// What this program wrote is read as it is: of a journal whose gates are open for good up to a closed one, the open
/// entries are those of the list.
pub fn a_list_is_read_again<D: Disk>(disk: &D)
    ensures { D.tells disk.now ≡ true → (names : List (List ℕ)) (before : Image) (entries : List (List Item))
        → IsListed (D.may_leave disk.now) names before entries
        → journal_in (D.seen disk.now journal2_name) ≡ Ok entries }
{}

/// An image without a head of `journal2` reads, breaks and stands for the same files as the list of `journal` alone.
pub fn a_former_image_reads_alike()
    ensures reads { (image : Image) (entries : List (List Item)) → length (image journal2_name) < head_start
        → (ReadsAs image entries ↔ ReadsFormer (image journal_name) entries) }
    ensures broken { (image : Image) → length (image journal2_name) < head_start
        → (IsBroken image ↔ BreaksFormer (image journal_name)) }
    ensures outcomes { (image files : Image) → length (image journal2_name) < head_start
        → (HasOutcome image files ↔ ((entries : List (List Item)) × ReadsFormer (image journal_name) entries × SameFiles files (with_entries image entries))) }
    ensures opening { (image : Image) → length (image journal2_name) < head_start
        → found_in image ≡ former_in (image journal_name) }
{}

/// A journal of one entry that no gate follows, or of none, as an earlier program wrote it, is to a list what it was to
/// that program: it has the same readings, is broken alike, and its image stands for the same files.
pub fn the_old_form_reads_alike()
    ensures reads { (image : Image) (entries : List (List Item)) → length (image journal2_name) < head_start
        → IsOldForm (image journal_name) → (ReadsAs image entries ↔ ReadAs image entries) }
    ensures broken { (image : Image) → length (image journal2_name) < head_start → IsOldForm (image journal_name)
        → (IsBroken image ↔ WasBroken image) }
    ensures outcomes { (image files : Image) → length (image journal2_name) < head_start
        → IsOldForm (image journal_name) → (HasOutcome image files ↔ HadOutcome image files) }
    ensures opening { (image : Image) → length (image journal2_name) < head_start → IsOldForm (image journal_name)
        → found_in image ≡ with_fault (opened_reading image) }
{}

/// A disk on which a crash leaves only such journals, and no head of `journal2`, is calm where it was calm to that
/// program.
pub fn the_old_form_is_calm_alike<D: Disk>(disk: &D)
    ensures { D.tells disk.now ≡ true → ((c : List ℕ) → D.may_leave disk.now journal_name c → IsOldForm c)
        → ((c : List ℕ) → D.may_leave disk.now journal2_name c → length c < head_start)
        → (files : Image) (doubt : Option (List Item))
        → (IsCalm (D.seen disk.now) (D.may_leave disk.now) files doubt ↔ WasCalm (D.seen disk.now) (D.may_leave disk.now) files doubt) }
{}

/// The open entries of a calm disk can be read, and its files with them are those that it has, or those with the entry
/// in doubt.
pub fn a_calm_disk_can_be_opened<D: Disk>(disk: &D)
    ensures read { WhereCalm D.Disk disk.now (λ files doubt. (list : List (List Item)) × (found_in (D.seen disk.now) ≡ Ok list)) }
    ensures either { WhereCalm D.Disk disk.now (λ files doubt. (list : List (List Item)) → found_in (D.seen disk.now) ≡ Ok list → IsEither files doubt (with_entries (D.seen disk.now) list)) }
{}

/// A journal is opened only where what is open is whole, and refused as bad at the place where the first part isn't, or
/// for its version. On a calm disk it is opened with the files that the opening leaves, which are those of the disk, or
/// those with the entry in doubt.
pub fn an_opening_tells_what_it_read<D: Disk>(disk: &D)
    ensures fresh { (result : Result (JournalValue D) (Refused D)) → OpensJournal D.Disk disk.now result
        → IfOk result IsFresh }
    ensures good { D.tells disk.now ≡ true → (result : Result (JournalValue D) (Refused D))
        → OpensJournal D.Disk disk.now result
        → OnOk result (found_in (D.seen disk.now) ≡ Ok (open_list (D.seen disk.now))) }
    ensures bad { D.tells disk.now ≡ true → (result : Result (JournalValue D) (Refused D))
        → OpensJournal D.Disk disk.now result
        → (at : ℕ) → fault_of result ≡ Some (JournalFault.BadJournal at) → bad_place (D.seen disk.now) ≡ Some at }
    ensures unknown { D.tells disk.now ≡ true → (result : Result (JournalValue D) (Refused D))
        → OpensJournal D.Disk disk.now result
        → (version : ℕ) → fault_of result ≡ Some (JournalFault.UnknownVersion version)
        → unknown_version (D.seen disk.now) ≡ Some version }
    ensures either { WhereCalm D.Disk disk.now (λ files doubt. IsEither files doubt (opened_files (D.seen disk.now))) }
    ensures opened { WhereCalm D.Disk disk.now (λ files doubt. (result : Result (JournalValue D) (Refused D)) → OpensJournal D.Disk disk.now result → IfOk result (HoldsOpened D.Disk disk.now)) }
{}

/// An image that an opening refuses is broken, and what it finds in one that isn't broken is one of its readings, so
/// that there is one.
pub fn an_unbroken_image_has_a_reading()
    ensures broken { (image : Image) (fault : Fault) → found_in image ≡ Err fault → IsBroken image }
    ensures reads { (image : Image) → ¬ IsBroken image → ReadsAs image (open_list image) }
{}
