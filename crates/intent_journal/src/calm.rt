//! Facts about calm disks. Nothing here runs: each function stands for its contract.
ghost use Rattle.std.specs.Prelude.{◌≡◌, ℕ, List, Option, true};
ghost use Rattle.kdb_outside.specs.Images.{Image, Only};
ghost use Rattle.journal_codec.specs.declared.files.FileText.{FileText as Item};
ghost use Rattle.journal_steps.specs.Outcomes.{with_entries, IsEither};
ghost use Rattle.intent_journal.specs.Outcomes.{HasOnly};
ghost use Rattle.intent_journal.specs.States.{IsListed, IsBare, IsCalm};

use kdb_outside::Disk;

/// A disk with one image is calm, as a machine finds it that starts after a crash, where its outcomes are these files,
/// or these with one entry.
pub fn one_image_is_calm<D: Disk>(disk: &D)
    ensures { ((file : List ℕ) → Only (D.seen disk.now file) (D.may_leave disk.now file))
        → (files : Image) (doubt : Option (List Item))
        → HasOnly (IsEither files doubt) (D.seen disk.now)
        → IsCalm (D.seen disk.now) (D.may_leave disk.now) files doubt }
{}

/// A disk whose list is there for good is calm, with the files that the list makes, and with any files and entry that
/// they are among.
pub fn a_listed_disk_is_calm<D: Disk>(disk: &D)
    ensures { D.tells disk.now ≡ true
        → (names : List (List ℕ)) (before files : Image) (entries : List (List Item)) (doubt : Option (List Item))
        → IsListed (D.may_leave disk.now) names before entries → IsEither files doubt (with_entries before entries)
        → IsCalm (D.seen disk.now) (D.may_leave disk.now) files doubt }
{}

/// And so is one whose header gate is closed for good, with its files.
pub fn a_bare_disk_is_calm<D: Disk>(disk: &D)
    ensures { D.tells disk.now ≡ true → (bare files : Image) (doubt : Option (List Item))
        → IsBare (D.may_leave disk.now) bare → IsEither files doubt bare
        → IsCalm (D.seen disk.now) (D.may_leave disk.now) files doubt }
{}
