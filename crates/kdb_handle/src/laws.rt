//! Laws of handles: when a set that was prepared earlier may still be committed, whose commit blocks one, that the
//! commits in the way of a merged set have rising numbers, what an undoing makes of the history, and what a story makes
//! of a run. Nothing here runs: each function stands for its contract.
ghost use Rattle.std.specs.Prelude.{◌≡◌, ℕ, ◌-◌, ◌++◌, ◌∷◌, [], List, Result, true, Ok, Err, length, take};
ghost use mathlib.Core.List.{IsPrefix};
ghost use Rattle.kdb_handle.specs.Fronts.{IsAnothers};
ghost use Rattle.kdb_handle.specs.Handles.{HandleValue};
ghost use Rattle.kdb_handle.specs.Merging.{IsMergedSet, Rise, in_the_way};
ghost use Rattle.kdb_handle.specs.Opened.{store_at};
ghost use Rattle.kdb_handle.specs.Runs.{ComesTo, RunsBy};
ghost use Rattle.kdb_handle.specs.Sets.{IsDone};
ghost use Rattle.kdb_handle.specs.Stores.{IsHandle};
ghost use Rattle.kdb_handle.specs.Story.{Told, commits_of};
ghost use Rattle.kdb_handle.specs.Turns.{IsPrepared};
ghost use Rattle.kdb_handle.specs.Undoing.{IsUndone, set_made, undo_by};
ghost use Rattle.kdb_handle.specs.declared.merging.MergeEnd.{MergeEnd};
ghost use Rattle.kdb_handle.specs.declared.merging.Tried.{Tried};
ghost use Rattle.key_merge.specs.declared.strategies.Strategy.{Strategy};
ghost use Rattle.model_crashes.specs.Runs.{Run};
ghost use Rattle.model_history.specs.History.{Commit, replay};
ghost use Rattle.model_maps.specs.KeyMap.{KeyMap};
ghost use Rattle.model_names.specs.Name.{Name};
ghost use Rattle.model_store.specs.Cores.{accepts};
ghost use Rattle.model_store.specs.Records.{IsRecord, Record};
ghost use Rattle.model_store.specs.Sets.{front_in};
ghost use Rattle.model_store.specs.Store.{Store, formats_of};
ghost use Rattle.model_undo.specs.Undoing.{inverse};
ghost use Rattle.mounted_files.specs.declared.files.MountedFile.{MountedFile};
ghost use Rattle.seat_lock.specs.Known.{Place};
ghost use Rattle.store_core.specs.declared.committing.CommitFault.TheVariants as fault;
ghost use Rattle.store_core.specs.declared.committing.Done.{Done};
ghost use Rattle.store_core.specs.declared.committing.Done.TheVariants.{Committed};
ghost use Rattle.store_core.specs.declared.cores.Plan.{Plan};
ghost use Rattle.store_verdict.specs.Preparing.{IsMade};
ghost use Rattle.store_verdict.specs.PreparedView.{prepared_of};
ghost use Rattle.store_verdict.specs.RecordView.{record_of};
ghost use Rattle.store_verdict.specs.declared.prepared.Prepared.{Prepared};

use storage_api::Formats;

/// A set that a handle prepared earlier is one that its record makes now, where the record accepts it: what is kept of
/// a mount goes by its front and the handle's own commits. The history may have grown since.
pub fn an_accepted_set_is_still_prepared<F: Formats>(_formats: &F)
    ensures { (files : List MountedFile) (earlier later : List Commit) (number handle : ℕ) (before rec : Record)
        (parent : Name) (keys : KeyMap) (set : Prepared)
        → IsPrefix earlier later → IsRecord (store_at files) earlier handle (front_in before) before
        → IsRecord (store_at files) later number (front_in rec) rec
        → IsMade (formats_of F.Formats) (store_at files) handle before parent keys set
        → accepts rec number (prepared_of set) ≡ true
        → IsPrepared (formats_of F.Formats) files number rec set }
{}

/// The commit that blocks a set of a handle is another's: the handle's fronts cover its own commits, and a mount by key
/// passes over them.
pub fn the_blocking_commit_is_anothers<F: Formats + Drop>(_formats: &F)
    ensures { (lock : Place Told) (plan : Plan F) (old new : HandleValue) (set : Prepared) (mount : Name) (by front : ℕ)
        → IsHandle lock plan old → IsPrepared (formats_of F.Formats) plan.mounted old.number (record_of old.rec) set
        → (done : IsDone (formats_of F.Formats) plan.mounted old new set (Err (fault.Conflict mount by front)))
        → IsAnothers old.number (commits_of done.found) by }
{}

/// The commits in the way of a merged set have rising numbers, from 1 on: each lies behind all that the get before it
/// found.
pub fn the_commits_in_the_way_rise<F: Formats>(_formats: &F)
    ensures { (files : List MountedFile) (parent : Name) (strategy : Strategy) (tries : ℕ) (old new : HandleValue)
        (ours after : KeyMap) (tried : List Tried) (end : Result Done MergeEnd)
        → IsMergedSet (formats_of F.Formats) files parent strategy tries old ours new after tried end
        → Rise 0 (in_the_way tried end) }
{}

/// An undoing that isn't refused makes one commit more, the handle's own, whose changes are the inverse of the commit
/// that it takes back, in the history that its turn found.
pub fn an_undo_appends_the_inverse<F: Formats>(_formats: &F)
    ensures { (files : List MountedFile) (old new : HandleValue) (number commit aside : ℕ) (keys after : KeyMap)
        → (undone : IsUndone (formats_of F.Formats) files old new number keys after (Ok (Committed commit aside)))
        → commits_of new.seen ≡ commits_of undone.found ++ record {
          handle = old.number;
          touched = (set_made (undo_by files old undone.found number)).touched;
          changes = inverse (store_at files).start (commits_of undone.found) number;
        } ∷ [] }
{}

/// Where it takes the last commit back, the map is then that of all commits before that one.
pub fn an_undo_of_the_last_commit_gives_the_map_before_it<F: Formats>(_formats: &F)
    ensures { (files : List MountedFile) (old new : HandleValue) (number commit aside : ℕ) (keys after : KeyMap)
        → (undone : IsUndone (formats_of F.Formats) files old new number keys after (Ok (Committed commit aside)))
        → number ≡ length (commits_of undone.found)
        → replay (store_at files).start (commits_of new.seen)
        ≡ replay (store_at files).start (take (number - 1) (commits_of undone.found)) }
{}

/// What a run comes to by a story: its files stay, its commits gain those of the story, and what was begun or is in
/// doubt had been, or is a set of the story.
pub fn a_run_comes_to_its_story<F: Formats>(_formats: &F)
    ensures { (store : Store) (keys : KeyMap) (first last : Run) (story : List Told)
        → RunsBy (formats_of F.Formats) store keys first story last
        → ComesTo (formats_of F.Formats) store keys first story last }
{}
