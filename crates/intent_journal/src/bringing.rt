//! The contents of a list of entries on their way into its files: each file takes that of the last entry that names it.
ghost use Rattle.std.specs.Prelude.{◌≡◌, ℕ, List, [], ◌∷◌, true, is_some, OnOk};
ghost use Rattle.std.specs.List.{AllByRecursion};
ghost use Rattle.kdb_outside.specs.Faults.{HasCause};
ghost use Rattle.kdb_outside.specs.Frames.{GoesOn};
ghost use Rattle.kdb_outside.specs.Images.{Image};
ghost use Rattle.journal_codec.specs.Entry.{IsEntry};
ghost use Rattle.journal_steps.specs.Outcomes.{content_in, with_entries, IsOutcome};
ghost use Rattle.journal_lists.specs.Lists.{as_one};
ghost use Rattle.intent_journal.specs.Bringing.{Brings};
ghost use Rattle.intent_journal.specs.States.{IsListed, HasBrought};
ghost use Rattle.intent_journal.specs.Steps.{Passes};

use journal_codec::FileText;
use journal_steps::put_file;
use kdb_outside::{Disk, Failed, FileName};
use key_meta::List;

/// Gives each file of a list of entries its last content, in whatever state they are. After Err some have theirs; no
/// other file changes. The journal is left alone.
pub fn bring_in<D: Disk>(disk: &mut D, list: &[List<FileText>]) -> Result<(), Failed>
    requires { AllByRecursion IsEntry list.now }
    ensures brought { D.tells disk.old ≡ true → OnOk result (HasBrought (D.may_leave disk.new) (as_one list.now)) }
    ensures brings { D.tells disk.old ≡ true → Brings D.Disk disk.old disk.new result (as_one list.now) [] }
    ensures passes { D.tells disk.old ≡ true → (names : List (List ℕ)) (before : Image)
        → IsListed (D.may_leave disk.old) names before list.now
        → Passes D.Disk disk.old disk.new result (λ leaves. IsListed leaves names before list.now) (λ leaves. IsListed leaves names before list.now)
        (IsOutcome (with_entries before list.now)) }
    ensures goes { GoesOn D.Disk disk.old disk.new }
    ensures cause { HasCause (D.faults disk.old) (D.faults disk.new) result }
{
    bring_all(disk, list)
}

/// The later entries come first, so that each file is written once.
fn bring_all<D: Disk>(disk: &mut D, list: &[List<FileText>]) -> Result<(), Failed>
    requires { AllByRecursion IsEntry list.now }
    ensures brings { D.tells disk.old ≡ true → Brings D.Disk disk.old disk.new result (as_one list.now) [] }
    ensures goes { GoesOn D.Disk disk.old disk.new }
    ensures cause { HasCause (D.faults disk.old) (D.faults disk.new) result }
{
    let [entry, later @ ..] = list else {
        return Ok(());
    };
    bring_all(disk, later)?;
    bring_entry(disk, entry.as_slice(), later)
}

/// Gives each file of an entry its content that no later entry names.
fn bring_entry<D: Disk>(
    disk: &mut D,
    entry: &[FileText],
    later: &[List<FileText>],
) -> Result<(), Failed>
    requires { IsEntry entry.now }
    ensures brings { D.tells disk.old ≡ true → Brings D.Disk disk.old disk.new result entry.now (as_one later.now) }
    ensures goes { GoesOn D.Disk disk.old disk.new }
    ensures cause { HasCause (D.faults disk.old) (D.faults disk.new) result }
{
    for text in entry {
        put_unless(disk, text, later)?;
    }
    Ok(())
}

/// Gives a file its content, unless a later entry names it.
fn put_unless<D: Disk>(
    disk: &mut D,
    text: &FileText,
    later: &[List<FileText>],
) -> Result<(), Failed>
    ensures brings { D.tells disk.old ≡ true
        → Brings D.Disk disk.old disk.new result (text.now ∷ []) (as_one later.now) }
    ensures goes { GoesOn D.Disk disk.old disk.new }
    ensures cause { HasCause (D.faults disk.old) (D.faults disk.new) result }
{
    if list_names(later, &text.file) {
        return Ok(());
    }
    put_file(disk, text)
}

/// Whether an entry of the list names this file.
fn list_names(list: &[List<FileText>], file: &FileName) -> bool
    ensures { result ≡ is_some (content_in (as_one list.now) file.now) }
{
    list.iter().any(|entry| names(entry.as_slice(), file))
}

/// Whether an entry names this file.
fn names(entry: &[FileText], file: &FileName) -> bool
    ensures { result ≡ is_some (content_in entry.now file.now) }
{
    entry.iter().any(|text| text.file == *file)
}
