//! The files of a store after a history, and the entries of a journal that make them. Definitions for the crates above,
//! with their laws.
#![tactic(auto)]

ghost use Rattle.std.specs.Prelude.{◌≡◌, ◌≤◌, ℕ, true, List, length, take, Option};
ghost use Rattle.intent_journal.specs.Outcomes.{HasOnly};
ghost use Rattle.journal_steps.specs.Outcomes.{with_entries, IsEither};
ghost use Rattle.journal_codec.specs.Entry.{IsEntry};
ghost use Rattle.journal_codec.specs.Header.{IsHeader};
ghost use Rattle.journal_codec.specs.Listed.{are_listed};
ghost use Rattle.model_maps.specs.KeyMap.{KeyMap};
ghost use Rattle.journal_codec.specs.declared.files.FileText.{FileText as Item};
ghost use Rattle.kdb_outside.specs.Images.{Image};
ghost use Rattle.model_crashes.specs.Runs.{Begun, IsBegun, IsReached};
ghost use Rattle.model_history.specs.History.{Commit};
ghost use Rattle.model_store.specs.Legal.{IsLegal, IsLegalCommit};
ghost use Rattle.model_store.specs.Store.{Store, formats_of};
ghost use Rattle.model_files.specs.Files.{HaveFiles, HaveOwnFiles, files_after, table_files};
ghost use Rattle.model_files.specs.Texts.{entries_of, entry_of};

use storage_api::Formats;

/// Where each mount has a file of its own, the files after a legal history are those at its beginning with the entry of
/// each of its commits, one after the other.
pub fn the_files_of_a_history_are_those_of_its_entries<F: Formats>(_formats: &F)
    ensures { (store : Store) (files : Image) (history : List Commit) → HaveOwnFiles store.mounts
        → IsLegal (formats_of F.Formats) store history
        → files_after (formats_of F.Formats) store files history
        ≡ with_entries files (entries_of (formats_of F.Formats) store history) }
{}

/// The entries of a prefix of a history are that many of its entries, so that a prefix of the one is a prefix of the
/// other.
pub fn the_entries_of_a_prefix_are_the_first_ones<F: Formats>(_formats: &F)
    ensures count { (store : Store) (history : List Commit)
        → length (entries_of (formats_of F.Formats) store history) ≡ length history }
    ensures first { (store : Store) (history : List Commit) (number : ℕ)
        → entries_of (formats_of F.Formats) store (take number history)
        ≡ take number (entries_of (formats_of F.Formats) store history) }
    ensures files { (store : Store) (files : Image) (history : List Commit) (number : ℕ) → HaveOwnFiles store.mounts
        → IsLegal (formats_of F.Formats) store history
        → files_after (formats_of F.Formats) store files (take number history)
        ≡ with_entries files (take number (entries_of (formats_of F.Formats) store history)) }
{}

/// An image that a run with the entries of a legal history may have left stands for the files after one prefix of that
/// history, and for these with one entry that was begun on just that prefix.
pub fn a_crash_leaves_a_prefix_of_the_history<F: Formats>(_formats: &F)
    ensures { (store : Store) (files : Image) (history : List Commit) (begun : List Begun) (image : Image)
        → HaveOwnFiles store.mounts → IsLegal (formats_of F.Formats) store history
        → IsReached files (entries_of (formats_of F.Formats) store history) begun image
        → (number : ℕ) × (doubt : Option (List Item)) × (number ≤ length history) × (IsBegun begun number doubt)
        × HasOnly (IsEither (files_after (formats_of F.Formats) store files (take number history)) doubt) image }
{}

/// The texts of a legal commit are an entry that a journal can hold, where the mounts have files for it.
pub fn a_legal_commit_is_an_entry<F: Formats>(_formats: &F)
    ensures { (store : Store) (before : KeyMap) (commit : Commit) → HaveFiles store.mounts
        → IsLegalCommit (formats_of F.Formats) store before commit
        → IsEntry (entry_of (formats_of F.Formats) store before commit) }
{}

/// The names of the files of a table are a header of a journal, where there is a mount and the mounts have files for
/// it.
pub fn the_files_of_a_table_are_a_header()
    ensures { (store : Store) → HaveFiles store.mounts → 1 ≤ length store.mounts → IsHeader (table_files store) }
{}

/// The entry of a commit names files of the table alone.
pub fn the_entry_of_a_commit_names_files_of_the_table<F: Formats>(_formats: &F)
    ensures { (store : Store) (before : KeyMap) (commit : Commit)
        → are_listed (table_files store) (entry_of (formats_of F.Formats) store before commit) ≡ true }
{}
