//! Worked examples.
ghost use Rattle.std.specs.Prelude.{◌≡◌, ◌++◌, [], ◌∷◌, codes};
ghost use Rattle.kdb_handle.specs.declared.merging.MergeEnd.TheVariants as merge_end;
ghost use Rattle.kdb_handle.specs.declared.replies.Reply.TheVariants.{GetRefused, Got, LookFound, LookNone, Memory, NoWatch, Quiet, SetDone, SetRefused, UndoRefused, Undone, Watching};
ghost use Rattle.kdb_handle.specs.declared.setting.SetFault.TheVariants.{Commit, Prepare};
ghost use Rattle.kdb_handle.specs.declared.undoing.UndoFault.TheVariants as undoing;
ghost use Rattle.kdb_print.specs.Printed.{printed};
ghost use Rattle.kdb_print.specs.Replies.{status_of};
ghost use Rattle.kdb_print.specs.Worked.{asked, gone, merged, mounts, name, new, phase_of, removes, script_of, sets, sets_with, steps_of, tried, unmerged};
ghost use Rattle.model_names.specs.declared.namespaces.Namespace.TheVariants.{System, User};
ghost use Rattle.mounted_files.specs.declared.refusals.GetFault.TheVariants as getting;
ghost use Rattle.store_core.specs.declared.committing.CommitFault.TheVariants.{Conflict, DatabaseFull, DiskFault};
ghost use Rattle.store_core.specs.declared.committing.Done.TheVariants.{Committed, Same};
ghost use Rattle.store_verdict.specs.declared.faults.PrepareFault.TheVariants.{NotFetched, Memory as Unprepared};

/// Three sessions get; then each sets in a phase of its own. The second meets the commit of the first, and the third
/// touches another mount.
pub fn a_batch_tells_its_phases_and_its_history()
    ensures { printed mounts (1 ∷ 2 ∷ 3 ∷ [])
        (script_of (phase_of (steps_of 1 ∷ steps_of 2 ∷ steps_of 3 ∷ []) ∷ phase_of (steps_of 1 ∷ []) ∷ phase_of (steps_of 2 ∷ []) ∷ phase_of (steps_of 3 ∷ []) ∷ []))
        (((Got 0 0 ∷ []) ∷ (Got 0 0 ∷ []) ∷ (Got 0 0 ∷ []) ∷ [])
        ∷ ((Quiet ∷ SetDone (Committed 1 0) ∷ []) ∷ [])
        ∷ ((Quiet ∷ SetRefused (Commit (Conflict (name User []) 1 1)) ∷ []) ∷ [])
        ∷ ((Quiet ∷ SetDone (Committed 2 0) ∷ []) ∷ [])
        ∷ [])
        (record { handle = 1; touched = 0 ∷ []; changes = sets (name User (codes "sw" ∷ [])) (codes "1") ∷ [] }
        ∷ record { handle = 3; touched = 1 ∷ []; changes = sets (name System (codes "sw" ∷ [])) (codes "3") ∷ [] }
        ∷ [])
        ≡ codes "phase 1\nsession 1\ngot 0 0\nsession 2\ngot 0 0\nsession 3\ngot 0 0\n"
        ++ (codes "phase 2\nsession 1\ncommit 1 aside 0\nphase 3\nsession 2\nconflict user:/ by 1 front 1\n"
        ++ (codes "phase 4\nsession 3\ncommit 2 aside 0\nhistory 2\ncommit 1 by 1\ntouched user:/\n+ user:/sw \"1\"\n"
        ++ codes "commit 2 by 3\ntouched system:/\n+ system:/sw \"3\"\nend\n")) }
{}

/// Session 7 has the first handle. A metadata has a line of its own behind its key's, and a removed key its name alone.
pub fn a_commit_tells_its_session_its_metadata_and_its_removals()
    ensures { printed mounts (7 ∷ []) (script_of (phase_of (steps_of 7 ∷ []) ∷ []))
        (((LookFound (name User (codes "a b" ∷ [])) (codes "x") ∷ LookNone ∷ SetDone (Same 0 1) ∷ []) ∷ []) ∷ [])
        (record { handle = 1; touched = 0 ∷ 1 ∷ []; changes = sets_with (name User (codes "a" ∷ [])) (codes "x") (codes "m") (codes "t") ∷ removes (name System (codes "b" ∷ [])) ∷ [] } ∷ [])
        ≡ codes "phase 1\nsession 7\nfound \"user:/a b\" \"x\"\nnone\nsame 0 aside 1\nhistory 1\n"
        ++ codes "commit 1 by 7\ntouched user:/ system:/\n+ user:/a \"x\"\n. \"m\" \"t\"\n- system:/b\nend\n" }
{}

/// A merge tells the tries that it merged, and behind them what its last set came to, the keys that both sides had
/// changed, or the last conflict.
pub fn a_merge_tells_its_tries_and_its_end()
    ensures { printed mounts (1 ∷ 2 ∷ 3 ∷ []) (script_of (phase_of (steps_of 1 ∷ steps_of 2 ∷ steps_of 3 ∷ []) ∷ []))
        (((merged (tried 1 2 4 ∷ tried 3 4 5 ∷ []) (Committed 6 1) ∷ merged [] (Same 6 1) ∷ [])
        ∷ (unmerged (tried 1 2 4 ∷ []) (merge_end.MergeConflicts (name User (codes "sw" ∷ []) ∷ name User (codes "a b" ∷ []) ∷ [])) ∷ [])
        ∷ (unmerged [] (merge_end.TriesSpent (name User []) 1 2) ∷ unmerged (tried 1 2 4 ∷ []) merge_end.Memory ∷ unmerged [] (merge_end.Set (Commit (DiskFault 0))) ∷ []) ∷ []) ∷ []) []
        ≡ codes "phase 1\nsession 1\ntried user:/ by 1 front 2 again 4\ntried user:/ by 3 front 4 again 5\ncommit 6 aside 1\nsame 6 aside 1\n"
        ++ (codes "session 2\ntried user:/ by 1 front 2 again 4\nmerge-conflict user:/sw \"user:/a b\"\nsession 3\nspent user:/ by 1 front 2\n"
        ++ codes "tried user:/ by 1 front 2 again 4\nmemory\nrefused C01100 disk-fault front 0\nhistory 0\nend\n") }
{}

/// A poll tells how many changes its watch left out, and behind that the last ones, each with the number of its commit.
pub fn a_poll_tells_the_last_changes_and_how_many_it_left_out()
    ensures { printed mounts (1 ∷ 2 ∷ []) (script_of (phase_of (steps_of 1 ∷ steps_of 2 ∷ []) ∷ []))
        (((NoWatch ∷ Watching 2 ∷ asked 2 0 [] ∷ [])
        ∷ (asked 5 1 (new 4 (name User (codes "b" ∷ [])) ∷ gone 5 (name System (codes "a b" ∷ [])) ∷ []) ∷ []) ∷ []) ∷ []) []
        ≡ codes "phase 1\nsession 1\nno-watch\nwatch 2\nnews 2 missed 0\n"
        ++ codes "session 2\nnews 5 missed 1\n~ 4 + user:/b\n~ 5 - \"system:/a b\"\nhistory 0\nend\n" }
{}

/// An undo tells the commit that it made, or that there is none to take back, or what a later commit changed of it, or
/// what a get or a set tells.
pub fn an_undo_tells_its_commit_or_why_there_is_none()
    ensures { printed mounts (1 ∷ []) (script_of (phase_of (steps_of 1 ∷ []) ∷ []))
        (((UndoRefused (undoing.Overtaken (name User (codes "a" ∷ [])) 2 2) ∷ Undone (Committed 3 0) ∷ UndoRefused (undoing.NoCommit 9 3)
        ∷ UndoRefused (undoing.Get (getting.BadFile (name User []) 4)) ∷ UndoRefused (undoing.Set (Commit (DatabaseFull 7 3)))
        ∷ UndoRefused undoing.Memory ∷ []) ∷ []) ∷ []) []
        ≡ codes "phase 1\nsession 1\nrefused C02000 overtaken user:/a by 2 front 2\ncommit 3 aside 0\nrefused C01320 no-commit 9 front 3\n"
        ++ codes "refused C03100 bad-file user:/ 4\nrefused C01100 database-full 7 front 3\nmemory\nhistory 0\nend\n" }
{}

/// A want of memory comes before a fault of the disk, wherever each stands.
pub fn a_status_tells_the_worst_reply()
    ensures well { status_of (((Got 0 0 ∷ Quiet ∷ []) ∷ []) ∷ []) ≡ 0 }
    ensures refused { status_of (((SetRefused (Prepare (NotFetched (name User []))) ∷ []) ∷ []) ∷ []) ≡ 0 }
    ensures fault { status_of (((SetRefused (Commit (DiskFault 0)) ∷ []) ∷ []) ∷ ((Quiet ∷ []) ∷ []) ∷ []) ≡ 74 }
    ensures merge { status_of (((unmerged (tried 1 2 4 ∷ []) (merge_end.Set (Commit (DiskFault 4))) ∷ []) ∷ []) ∷ [])
        ≡ 74 }
    ensures memory { status_of (((SetRefused (Commit (DiskFault 0)) ∷ []) ∷ []) ∷ ((SetRefused (Prepare Unprepared) ∷ []) ∷ []) ∷ [])
        ≡ 70 }
    ensures cut { status_of (((unmerged (tried 1 2 4 ∷ []) merge_end.Memory ∷ []) ∷ []) ∷ []) ≡ 70 }
    ensures undone { status_of (((Undone (Committed 3 0) ∷ UndoRefused (undoing.NoCommit 9 3) ∷ []) ∷ []) ∷ []) ≡ 0 }
    ensures undo_fault { status_of (((UndoRefused (undoing.Set (Commit (DiskFault 2))) ∷ []) ∷ []) ∷ []) ≡ 74 }
    ensures undo_memory { status_of (((UndoRefused (undoing.Get getting.Memory) ∷ []) ∷ []) ∷ []) ≡ 70 }
    ensures polls { status_of (((NoWatch ∷ Watching 0 ∷ asked 5 1 (new 4 (name User []) ∷ []) ∷ []) ∷ []) ∷ []) ≡ 0 }
    ensures alone { status_of (((Memory ∷ []) ∷ []) ∷ []) ≡ 70 }
{}
