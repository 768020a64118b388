//! What a run of commits promises of a crash at any moment. Definitions for the crates above, with their laws.
#![tactic(auto)]

ghost use Rattle.std.specs.Prelude.{◌≡◌, ◌≤◌, ℕ, List, length, take, Option};
ghost use Rattle.kdb_outside.specs.Images.{Image};
ghost use Rattle.journal_codec.specs.declared.files.FileText.{FileText as Item};
ghost use Rattle.intent_journal.specs.Outcomes.{HasOutcome};
ghost use Rattle.journal_steps.specs.Outcomes.{with_entry, with_entries, IsEither};
ghost use Rattle.model_crashes.specs.Runs.{Run, Begun, files_of, IsBegun, IsReached, after_begun, after_commit};

/// What a run may have left stays so while it goes on: each acknowledged commit and each one begun only adds to it.
pub fn a_run_only_reaches_more()
    ensures begun { (run : Run) (entry : List Item) (later : Option (List Item)) (image : Image)
        → IsReached run.files run.commits run.begun image
        → IsReached (after_begun run entry later).files (after_begun run entry later).commits (after_begun run entry later).begun image }
    ensures commit { (run : Run) (entry : List Item) (image : Image) → IsReached run.files run.commits run.begun image
        → IsReached (after_commit run entry).files (after_commit run entry).commits (after_commit run entry).begun image }
{}

/// One image stands for one prefix and at most one entry over it: outcomes of two prefixes, or of two entries, never
/// come of one crash.
pub fn an_image_reached_has_one_prefix()
    ensures { (files : Image) (commits : List (List Item)) (begun : List Begun) (image : Image)
        → IsReached files commits begun image
        → (number : ℕ) × (doubt : Option (List Item)) × (number ≤ length commits) × (IsBegun begun number doubt)
        × ((outcome : Image) → HasOutcome image outcome → IsEither (with_entries files (take number commits)) doubt outcome) }
{}

/// The files behind one more commit are those before it with its entry.
pub fn a_commit_adds_its_entry()
    ensures { (run : Run) (entry : List Item) → files_of (after_commit run entry) ≡ with_entry (files_of run) entry }
{}
