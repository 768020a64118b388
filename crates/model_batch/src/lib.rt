//! What the steps of a batch's sessions mean, and which transcripts of a script are fair. Definitions for the crates
//! above, with their laws.
#![tactic(auto)]

mod examples;
mod laws;

ghost use Rattle.std.specs.Prelude.{ℕ, ◌≤◌, List, ◌++◌};
ghost use Rattle.std.specs.List.{AllByRecursion};
ghost use mathlib.Core.List.{IsPrefix};
ghost use Rattle.batch_script.specs.declared.steps.Step.{Step};
ghost use Rattle.kdb_handle.specs.declared.replies.Reply.{Reply};
ghost use Rattle.model_batch.specs.Sessions.{Session};
ghost use Rattle.model_batch.specs.Told.{IsAtLeast, Tells};
ghost use Rattle.model_history.specs.History.{Commit};
ghost use Rattle.model_maps.specs.KeyMap.{KeyMap};
ghost use Rattle.model_store.specs.Store.{formats_of};
ghost use Rattle.mounted_files.specs.declared.files.MountedFile.{MountedFile};

pub use examples::{
    commits_go_by_their_handles, merges_tell_their_tries, others_are_counted, replies_tell_fronts,
    sessions_have_rows, undos_tell_fronts,
};
pub use laws::{
    a_conflict_is_with_the_commit_of_another, a_merge_is_not_spent_by_fewer_commits_than_its_tries,
    a_session_is_told_each_change_once,
};
use storage_api::Formats;

/// A session is told step by step: what its steps mean stays so when the history goes on, and goes on from where other
/// steps ended. The number of commits that it was told of never falls, and each front is at least that number at first.
pub fn a_session_is_told_step_by_step<F: Formats>(_formats: &F)
    ensures more { (files : List MountedFile) (procs : KeyMap) (number : ℕ) (history longer : List Commit)
        (old new : Session) (steps : List Step) (answers : List Reply)
        → IsPrefix history longer → Tells (formats_of F.Formats) files procs number history old steps answers new
        → Tells (formats_of F.Formats) files procs number longer old steps answers new }
    ensures both { (files : List MountedFile) (procs : KeyMap) (number : ℕ) (history : List Commit)
        (old mid new : Session) (steps later : List Step) (answers others : List Reply)
        → Tells (formats_of F.Formats) files procs number history old steps answers mid
        → Tells (formats_of F.Formats) files procs number history mid later others new
        → Tells (formats_of F.Formats) files procs number history old (steps ++ later) (answers ++ others) new }
    ensures later { (files : List MountedFile) (procs : KeyMap) (number : ℕ) (history : List Commit) (old new : Session)
        (steps : List Step) (answers : List Reply)
        → Tells (formats_of F.Formats) files procs number history old steps answers new
        → (old.told ≤ new.told) × AllByRecursion (IsAtLeast old.told) answers }
{}
