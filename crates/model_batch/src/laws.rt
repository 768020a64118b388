//! Laws of fair transcripts: whose commits are in the way of a set, how many tries a merge can spend, and what polls
//! tell. Nothing here runs: each function stands for its contract.
ghost use Rattle.std.specs.Prelude.{◌≡◌, ℕ, ◌+◌, ◌≤◌, ◌<◌, false, List, [], ◌∷◌, ◌++◌, length, slice_get, Some};
ghost use Rattle.std.specs.List.{AllByRecursion};
ghost use Rattle.batch_script.specs.declared.steps.Step.{Step};
ghost use Rattle.batch_script.specs.declared.steps.Step.TheVariants as step;
ghost use Rattle.kdb_handle.specs.Fronts.{IsAnothers};
ghost use Rattle.kdb_handle.specs.declared.merging.MergeEnd.TheVariants as merge_end;
ghost use Rattle.kdb_handle.specs.declared.merging.Tried.{Tried};
ghost use Rattle.kdb_handle.specs.declared.replies.Reply.{Reply};
ghost use Rattle.kdb_handle.specs.declared.replies.Reply.TheVariants as reply;
ghost use Rattle.key_merge.specs.declared.strategies.Strategy.{Strategy};
ghost use Rattle.model_batch.specs.Fair.{IsFair, of_session};
ghost use Rattle.model_batch.specs.Replies.{conflicts_told};
ghost use Rattle.model_batch.specs.Sessions.{Session};
ghost use Rattle.model_batch.specs.Told.{Tells, count_of_others};
ghost use Rattle.model_batch.specs.Watches.{Follows, begins_watch};
ghost use Rattle.model_history.specs.History.{Commit};
ghost use Rattle.model_maps.specs.KeyMap.{KeyMap};
ghost use Rattle.model_names.specs.Name.{Name};
ghost use Rattle.model_store.specs.Store.{formats_of};
ghost use Rattle.mounted_files.specs.declared.files.MountedFile.{MountedFile};

use storage_api::Formats;

/// In fair transcripts each commit that a session is told of as in the way is another's. So a session alone is told of
/// none.
pub fn a_conflict_is_with_the_commit_of_another<F: Formats>(_formats: &F)
    ensures anothers { (files : List MountedFile) (sessions : ℕ) (procs : ℕ → KeyMap) (history : List Commit)
        (steps : List (List (List Step))) (replies : List (List (List Reply)))
        → IsFair (formats_of F.Formats) files sessions procs history steps replies
        → (i : ℕ) → i < sessions
        → AllByRecursion (λ answer. AllByRecursion (IsAnothers (i + 1) history) (conflicts_told answer)) (of_session i replies) }
    ensures alone { (files : List MountedFile) (sessions : ℕ) (procs : ℕ → KeyMap) (history : List Commit)
        (steps : List (List (List Step))) (replies : List (List (List Reply)))
        → sessions ≡ 1 → IsFair (formats_of F.Formats) files sessions procs history steps replies
        → AllByRecursion (λ answer. conflicts_told answer ≡ []) (of_session 0 replies) }
{}

/// In fair transcripts a merge spends all its tries only where others made as many commits: each try met one more of
/// them.
pub fn a_merge_is_not_spent_by_fewer_commits_than_its_tries<F: Formats>(_formats: &F)
    ensures { (files : List MountedFile) (sessions : ℕ) (procs : ℕ → KeyMap) (history : List Commit)
        (steps : List (List (List Step))) (replies : List (List (List Reply)))
        → IsFair (formats_of F.Formats) files sessions procs history steps replies
        → (i at : ℕ) → i < sessions → (parent : Name) (strategy : Strategy) (tries : ℕ)
        → slice_get (of_session i steps) at ≡ Some (step.Merge parent strategy tries)
        → (tried : List Tried) (mount : Name) (by front : ℕ)
        → slice_get (of_session i replies) at
        ≡ Some (reply.MergeRefused (record { tried = tried; end = merge_end.TriesSpent mount by front }))
        → tries ≤ count_of_others (i + 1) history }
{}

/// Behind a session's watch, its polls one after the other tell each change at or below the parent once and in order,
/// or count it among those that they missed, until another watch begins. By `fair` so it is in fair transcripts.
pub fn a_session_is_told_each_change_once<F: Formats>(_formats: &F)
    ensures behind { (files : List MountedFile) (procs : KeyMap) (number : ℕ) (history : List Commit)
        (old new : Session) (parent : Name) (room front : ℕ) (steps : List Step) (replies : List Reply)
        → Tells (formats_of F.Formats) files procs number history old (step.Watch parent room ∷ steps) (reply.Watching front ∷ replies) new
        → AllByRecursion (λ answer. begins_watch answer ≡ false) replies
        → Follows history (record { parent = parent; room = room; from = front }) replies new }
    ensures fair { (files : List MountedFile) (sessions : ℕ) (procs : ℕ → KeyMap) (history : List Commit)
        (steps : List (List (List Step))) (replies : List (List (List Reply)))
        → IsFair (formats_of F.Formats) files sessions procs history steps replies
        → (i : ℕ) → i < sessions
        → (before later : List Step) (answers others : List Reply) (parent : Name) (room front : ℕ)
        → length before ≡ length answers
        → of_session i steps ≡ before ++ step.Watch parent room ∷ later
        → of_session i replies ≡ answers ++ reply.Watching front ∷ others
        → AllByRecursion (λ answer. begins_watch answer ≡ false) others
        → (last : Session) × Follows history (record { parent = parent; room = room; from = front }) others last }
{}
