//! The phases of a commit on the disk: room is made for an entry, the journal gets its head where it has none, the
//! entry is put behind the list, and its gate opened. The files take the contents of the whole list at once, when it is
//! brought in.
ghost use Rattle.std.specs.Prelude.{◌≡◌, ◌≤◌, ◌++◌, ◌∷◌, [], ℕ, length, List, Option, Some, None, true, false, OnOk, OnErr};
ghost use Rattle.kdb_outside.specs.Images.{Image};
ghost use Rattle.journal_codec.specs.declared.files.FileText.{FileText as Item};
ghost use Rattle.journal_codec.specs.Entry.{IsEntry};
ghost use Rattle.journal_codec.specs.Forms.{behind_gate, spelled_on};
ghost use Rattle.journal_steps.specs.Moments.{LeavesOnly};
ghost use Rattle.journal_steps.specs.Outcomes.{with_entry};
ghost use Rattle.intent_journal.specs.Journal.{has_room, IsHeaderBytes, IsList};
ghost use Rattle.intent_journal.specs.States.{IsSettled};
ghost use Rattle.model_crashes.specs.Runs.{IsAmid, IsOneOf};
ghost use Rattle.store_phases.specs.Phases.{IsPhase, StaysAtRest, RestsBehindHead, BeginsEntry, WhereAtRest};
ghost use Rattle.store_phases.specs.Resting.{IsResting};

use intent_journal::Journal;
use journal_codec::FileText;
use journal_steps::State;
use kdb_outside::{Disk, Failed};
use key_meta::List;

/// Closes a gate in doubt, and brings the entries of the list into their files.
pub fn make_clean<D: Disk>(journal: &mut Journal<D>) -> Result<(), Failed>
    ensures ok { OnOk result ((journal.new.list ≡ []) × (journal.new.in_doubt ≡ false)) }
    ensures phase { IsPhase D.Disk journal.old journal.new result }
    ensures rests { StaysAtRest D.Disk journal.old journal.new }
    ensures settled { (names : List (List ℕ)) (files : Image) (doubt : Option (List Item))
        → IsResting D.Disk journal.old names files doubt
        → OnOk result (IsSettled (D.may_leave journal.new.disk) files) }
{
    journal.settle()?;
    if journal.is_empty() {
        return Ok(());
    }
    journal.finish()
}

/// Closes a gate in doubt, so that an entry with a body of this size may be put, and brings the list in where it has no
/// room for it.
pub fn make_room<D: Disk>(journal: &mut Journal<D>, body: usize) -> Result<(), Failed>
    requires { body ≤ 67200000 }
    ensures ok { OnOk result ((journal.new.in_doubt ≡ false) × (has_room journal.new.list body ≡ true)) }
    ensures fits { OnOk result ((entry : List Item) → IsEntry entry → body ≡ length (spelled_on entry)
        → IsList (journal.new.list ++ entry ∷ [])) }
    ensures phase { IsPhase D.Disk journal.old journal.new result }
    ensures rests { StaysAtRest D.Disk journal.old journal.new }
{
    if journal.fits(body) {
        return journal.settle();
    }
    make_clean(journal)
}

/// Puts the head of the journal, as `journal_codec::encode_header` gives it, where it has none. After `Err` the header
/// gate is in doubt.
pub fn head<D: Disk>(journal: &mut Journal<D>, header: &[u8]) -> Result<(), Failed>
    requires sure { journal.old.in_doubt ≡ false }
    requires header { IsHeaderBytes header.now }
    ensures ok { OnOk result ((journal.new.headed ≡ true) × (journal.new.in_doubt ≡ false)) }
    ensures list { journal.new.list ≡ journal.old.list }
    ensures phase { IsPhase D.Disk journal.old journal.new result }
    ensures rests { RestsBehindHead D.Disk journal.old journal.new header.now }
{
    if journal.state() == State::Bare {
        return journal.put_header(header);
    }
    Ok(())
}

/// Puts the body of these files behind the list, and opens its gate. From `Ok` on they are stored, whatever happens.
pub fn begin<D: Disk>(
    journal: &mut Journal<D>,
    encoded: &[u8],
    files: List<FileText>,
) -> Result<(), Failed>
    requires headed { journal.old.headed ≡ true }
    requires sure { journal.old.in_doubt ≡ false }
    requires fits { IsList (journal.old.list ++ files ∷ []) }
    requires encoded { encoded.now ≡ behind_gate files ++ 0 ∷ [] }
    ensures ok { OnOk result ((journal.new.in_doubt ≡ false) × (journal.new.list ≡ journal.old.list ++ files ∷ [])) }
    ensures phase { IsPhase D.Disk journal.old journal.new result }
    ensures passes { BeginsEntry D.Disk journal.old journal.new result files }
{
    journal.put_body(encoded)?;
    journal.open_gate(files)
}

/// Stores an entry: its files change together, and are stored from `Ok` on. They take their contents later.
pub fn store<D: Disk>(
    journal: &mut Journal<D>,
    header: &[u8],
    encoded: &[u8],
    files: List<FileText>,
) -> Result<(), Failed>
    requires entry { IsEntry files }
    requires header { IsHeaderBytes header.now }
    requires encoded { encoded.now ≡ behind_gate files ++ 0 ∷ [] }
    ensures sure { OnOk result (journal.new.in_doubt ≡ false) }
    ensures committed { WhereAtRest D.Disk journal.old header.now files (λ names before doubt. OnOk result (IsResting D.Disk journal.new names (with_entry before files) None)) }
    ensures failed { WhereAtRest D.Disk journal.old header.now files (λ names before doubt.
        OnErr result ((later : Option (List Item)) × IsOneOf later doubt files × IsResting D.Disk journal.new names before later)) }
    ensures any_moment { WhereAtRest D.Disk journal.old header.now files (λ names before doubt. LeavesOnly D.Disk journal.old.disk journal.new.disk (IsAmid before doubt files)) }
    ensures phase { IsPhase D.Disk journal.old journal.new result }
{
    // The length stands in four bytes before the body, and a closed gate in one behind it.
    make_room(journal, encoded.len() - 5)?;
    head(journal, header)?;
    begin(journal, encoded, files)
}
