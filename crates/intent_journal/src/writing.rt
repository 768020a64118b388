//! The steps of a head and of an entry into a journal: bytes behind a closed gate, and gates that open and close.
ghost use Rattle.std.specs.Prelude.{◌≡◌, ◌≤◌, ◌+◌, ◌∷◌, ◌++◌, [], ℕ, List, length, None, true, OnOk};
ghost use Rattle.kdb_outside.specs.Faults.{HasCause};
ghost use Rattle.kdb_outside.specs.Frames.{GoesOn};
ghost use Rattle.kdb_outside.specs.Images.{Image};
ghost use Rattle.journal_codec.specs.Entry.{journal2_name};
ghost use Rattle.journal_codec.specs.Header.{IsHeader, header_bytes};
ghost use Rattle.journal_lists.specs.Grammar.{last_place};
ghost use Rattle.journal_lists.specs.Heads.{head_start};
ghost use Rattle.journal_codec.specs.Header.{longest_header};
ghost use Rattle.journal_steps.specs.Outcomes.{IsOutcome};
ghost use Rattle.journal_steps.specs.Steps.{WritesThrough};
ghost use Rattle.intent_journal.specs.States.{IsListed, IsBare, IsHeadInDoubt};
ghost use Rattle.intent_journal.specs.Steps.{Passes, HasOpened};

use journal_lists::{CLOSED, OPEN};
use journal_steps::write_through;
use kdb_outside::{Disk, Failed, FileName};

/// Writes a head behind the closed header gate, and opens the gate on it.
pub(crate) fn put_header<D: Disk>(
    disk: &mut D,
    name: &FileName,
    header: &[u8],
) -> Result<(), Failed>
    requires named { name.now ≡ journal2_name }
    requires there { D.tells disk.old ≡ true → 1 ≤ length (D.seen disk.old name.now) }
    ensures opened { D.tells disk.old ≡ true → OnOk result (HasOpened header.now (D.may_leave disk.new)) }
    ensures passes { D.tells disk.old ≡ true → (names : List (List ℕ)) (files : Image) → header.now ≡ header_bytes names
        → IsHeader names → IsBare (D.may_leave disk.old) files
        → Passes D.Disk disk.old disk.new result (λ leaves. IsListed leaves names files []) (λ leaves. IsHeadInDoubt leaves files None) (IsOutcome files) }
    ensures goes { GoesOn D.Disk disk.old disk.new }
    ensures cause { HasCause (D.faults disk.old) (D.faults disk.new) result }
{
    write_through(disk, name, 1, header)?;
    write_through(disk, name, 0, &[OPEN])
}

/// Writes the length and the body of an entry, and a closed gate, behind the closed gate at this place, which ends a
/// list.
pub(crate) fn put_body<D: Disk>(
    disk: &mut D,
    name: &FileName,
    at: u64,
    encoded: &[u8],
) -> Result<(), Failed>
    requires limit { at ≤ head_start + longest_header + last_place }
    requires there { D.tells disk.old ≡ true → at + 1 ≤ length (D.seen disk.old name.now) }
    ensures writes { D.tells disk.old ≡ true
        → WritesThrough D.Disk disk.old disk.new result name.now (at + 1) encoded.now }
    ensures goes { GoesOn D.Disk disk.old disk.new }
    ensures cause { HasCause (D.faults disk.old) (D.faults disk.new) result }
{
    write_through(disk, name, at + 1, encoded)
}

/// Opens the gate at this place.
pub(crate) fn open_gate<D: Disk>(disk: &mut D, name: &FileName, at: u64) -> Result<(), Failed>
    requires { D.tells disk.old ≡ true → at ≤ length (D.seen disk.old name.now) }
    ensures writes { D.tells disk.old ≡ true → WritesThrough D.Disk disk.old disk.new result name.now at (1 ∷ []) }
    ensures goes { GoesOn D.Disk disk.old disk.new }
    ensures cause { HasCause (D.faults disk.old) (D.faults disk.new) result }
{
    write_through(disk, name, at, &[OPEN])
}

/// Closes the gate at this place.
pub(crate) fn close_gate<D: Disk>(disk: &mut D, name: &FileName, at: u64) -> Result<(), Failed>
    requires { D.tells disk.old ≡ true → at ≤ length (D.seen disk.old name.now) }
    ensures writes { D.tells disk.old ≡ true → WritesThrough D.Disk disk.old disk.new result name.now at (0 ∷ []) }
    ensures goes { GoesOn D.Disk disk.old disk.new }
    ensures cause { HasCause (D.faults disk.old) (D.faults disk.new) result }
{
    write_through(disk, name, at, &[CLOSED])
}
