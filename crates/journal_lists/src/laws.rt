//! Facts about lists of entries and the heads before them. Nothing here runs: each function stands for its contract.
ghost use Rattle.std.specs.Prelude.{◌≡◌, ◌↔◌, ◌+◌, ℕ, List, [], ◌∷◌, ◌++◌, length, Ok, Err, true};
ghost use Rattle.kdb_outside.specs.Images.{IsTornWrite};
ghost use Rattle.journal_codec.specs.declared.files.FileText.{FileText as Item};
ghost use Rattle.journal_codec.specs.Entry.{IsEntry};
ghost use Rattle.journal_codec.specs.Header.{IsHeader};
ghost use Rattle.journal_codec.specs.Listed.{are_listed};
ghost use Rattle.journal_steps.specs.declared.faults.JournalFault.{JournalFault as Fault};
ghost use Rattle.journal_steps.specs.JournalBytes.{IsClosed};
ghost use Rattle.journal_lists.specs.Heads.{front, IsHead};
ghost use Rattle.journal_lists.specs.Journals.{ReadsFormer, OpensFormer, BreaksFormer, former_in, ReadsJournal, OpensJournal, BreaksJournal, journal_in};
ghost use Rattle.journal_lists.specs.Lists.{Fits, list_bytes, BeginsSo};
ghost use Rattle.journal_lists.specs.Rules.{plain, listed, IsAllowed};

/// What is read in `journal` are its open entries, with which each of its readings begins; it is refused only where one
/// of them, in some reading, isn't whole.
pub fn a_former_journal_is_read_as_it_opens()
    ensures opens { (c : List ℕ) (entries : List (List Item)) → (former_in c ≡ Ok entries ↔ OpensFormer c entries) }
    ensures broken { (c : List ℕ) (fault : Fault) → former_in c ≡ Err fault → BreaksFormer c }
    ensures read { (c : List ℕ) (entries : List (List Item)) → OpensFormer c entries → ReadsFormer c entries }
    ensures begins { (c : List ℕ) (opens reads : List (List Item)) → OpensFormer c opens → ReadsFormer c reads
        → BeginsSo opens reads }
    ensures unbroken { (c : List ℕ) → ¬ BreaksFormer c → (entries : List (List Item)) × OpensFormer c entries }
{}

/// The same of `journal2`.
pub fn a_journal_is_read_as_it_opens()
    ensures opens { (c : List ℕ) (entries : List (List Item)) → (journal_in c ≡ Ok entries ↔ OpensJournal c entries) }
    ensures broken { (c : List ℕ) (fault : Fault) → journal_in c ≡ Err fault → BreaksJournal c }
    ensures read { (c : List ℕ) (entries : List (List Item)) → OpensJournal c entries → ReadsJournal c entries }
    ensures begins { (c : List ℕ) (opens reads : List (List Item)) → OpensJournal c opens → ReadsJournal c reads
        → BeginsSo opens reads }
    ensures unbroken { (c : List ℕ) → ¬ BreaksJournal c → (entries : List (List Item)) × OpensJournal c entries }
{}

/// What this program writes is read as it is: an entry, a head, and a list behind it up to a closed gate.
pub fn what_is_written_is_read_again()
    ensures former_entry { (entry : List Item) → IsEntry entry → IsAllowed plain entry }
    ensures entry { (names : List (List ℕ)) (entry : List Item) → IsEntry entry → are_listed names entry ≡ true
        → IsAllowed (listed names) entry }
    ensures head { (names : List (List ℕ)) (rest : List ℕ) → IsHeader names → IsHead (front names ++ rest) names }
    ensures list { (names : List (List ℕ)) (entries : List (List Item)) (rest : List ℕ) → IsHeader names
        → Fits (listed names) entries → IsClosed rest
        → journal_in (front names ++ (list_bytes entries ++ rest)) ≡ Ok entries }
{}

/// A torn write behind a front of a file's bytes leaves the front, and one of a gate leaves the head behind it.
pub fn a_write_behind_a_front_leaves_it()
    ensures torn { (before bytes rest now : List ℕ) (place at : ℕ) → place ≡ length before + at
        → IsTornWrite place bytes (before ++ rest) now
        → (behind : List ℕ) × (now ≡ before ++ behind) × IsTornWrite at bytes rest behind }
    ensures head { (gate : ℕ) (c now : List ℕ) (names : List (List ℕ)) → IsTornWrite 0 (gate ∷ []) c now
        → IsHead c names → IsHead now names }
{}
