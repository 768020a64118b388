//! Worked rows.
ghost use Rattle.std.specs.Prelude.{◌≡◌, List, [], ◌∷◌};
ghost use Rattle.batch_script.specs.declared.steps.Step.{Step};
ghost use Rattle.kdb_handle.specs.declared.merging.MergeEnd.TheVariants as end;
ghost use Rattle.kdb_handle.specs.declared.replies.Reply.{Reply};
ghost use Rattle.kdb_handle.specs.declared.replies.Reply.TheVariants as reply;
ghost use Rattle.kdb_handle.specs.declared.setting.SetFault.TheVariants as fault;
ghost use Rattle.kdb_handle.specs.declared.undoing.UndoFault.TheVariants as undo;
ghost use Rattle.model_batch.specs.Replies.{conflicts_told, failures_told, fronts_told, numbers_told};
ghost use Rattle.model_batch.specs.Scripts.{reply_rows, sessions_of, step_rows};
ghost use Rattle.model_batch.specs.Told.{count_of_others, numbers_by};
ghost use Rattle.model_names.specs.Name.{Name};
ghost use Rattle.mounted_files.specs.declared.refusals.GetFault.{GetFault};
ghost use Rattle.store_core.specs.declared.committing.CommitFault.TheVariants as commit;
ghost use Rattle.store_core.specs.declared.committing.Done.TheVariants as done;

/// Of three commits the handle 1 made the first and the last.
pub fn commits_go_by_their_handles()
    ensures first { numbers_by 1 (record { handle = 1; touched = 0 ∷ []; changes = [] } ∷ record { handle = 2; touched = 0 ∷ []; changes = [] } ∷ record { handle = 1; touched = 1 ∷ []; changes = [] } ∷ [])
        ≡ 1 ∷ 3 ∷ [] }
    ensures second { numbers_by 2 (record { handle = 1; touched = 0 ∷ []; changes = [] } ∷ record { handle = 2; touched = 0 ∷ []; changes = [] } ∷ record { handle = 1; touched = 1 ∷ []; changes = [] } ∷ [])
        ≡ 2 ∷ [] }
{}

/// A commit tells its number, and that it found one fewer; a set that the disk failed, or whose file would be too
/// large, tells how many it found, and so do a watch and a poll.
pub fn replies_tell_fronts()
    ensures number { numbers_told (reply.SetDone (done.Committed 3 0)) ≡ 3 ∷ [] }
    ensures commit { fronts_told (reply.SetDone (done.Committed 3 0)) ≡ 2 ∷ [] }
    ensures got { fronts_told (reply.Got 4 2) ≡ 4 ∷ [] }
    ensures failed { failures_told (reply.SetRefused (fault.Commit (commit.DiskFault 5))) ≡ 1 }
    ensures found { fronts_told (reply.SetRefused (fault.Commit (commit.DiskFault 5))) ≡ 5 ∷ [] }
    ensures large { (mount : Name)
        → fronts_told (reply.SetRefused (fault.Commit (commit.FileTooLarge mount 1048577 5))) ≡ 5 ∷ [] }
    ensures watching { fronts_told (reply.Watching 4) ≡ 4 ∷ [] }
    ensures news { fronts_told (reply.News (record { front = 6; missed = 1; changes = [] })) ≡ 6 ∷ [] }
    ensures quiet { fronts_told reply.Quiet ≡ [] }
{}

/// An undoing tells its commit and its front as a set does, where it was refused for want of such a commit or by a
/// later one the front, and by a bad mount none.
pub fn undos_tell_fronts()
    ensures number { numbers_told (reply.Undone (done.Committed 3 0)) ≡ 3 ∷ [] }
    ensures commit { fronts_told (reply.Undone (done.Committed 3 0)) ≡ 2 ∷ [] }
    ensures none { fronts_told (reply.UndoRefused (undo.NoCommit 9 3)) ≡ 3 ∷ [] }
    ensures overtaken { (name : Name) → fronts_told (reply.UndoRefused (undo.Overtaken name 2 5)) ≡ 5 ∷ [] }
    ensures failed { failures_told (reply.UndoRefused (undo.Set (fault.Commit (commit.DiskFault 5)))) ≡ 1 }
    ensures bad { (why : GetFault) → fronts_told (reply.UndoRefused (undo.Get why)) ≡ [] }
{}

/// A merge that met two conflicts tells two fronts of each try and the one of its end, and who was in the way; it is
/// told as a commit, as spent, or as cut off by keys in conflict.
pub fn merges_tell_their_tries()
    ensures merged { (mount : Name)
        → fronts_told (reply.Merged (record { tried = record { mount = mount; by = 3; front = 4; again = 4 } ∷ record { mount = mount; by = 5; front = 6; again = 7 } ∷ []; done = done.Committed 9 0 }))
        ≡ 4 ∷ 4 ∷ 6 ∷ 7 ∷ 8 ∷ [] }
    ensures number { (mount : Name)
        → numbers_told (reply.Merged (record { tried = record { mount = mount; by = 3; front = 4; again = 4 } ∷ []; done = done.Committed 9 0 }))
        ≡ 9 ∷ [] }
    ensures spent { (mount : Name)
        → fronts_told (reply.MergeRefused (record { tried = record { mount = mount; by = 3; front = 4; again = 4 } ∷ []; end = end.TriesSpent mount 5 6 }))
        ≡ 4 ∷ 4 ∷ 6 ∷ [] }
    ensures in_the_way { (mount : Name)
        → conflicts_told (reply.MergeRefused (record { tried = record { mount = mount; by = 3; front = 4; again = 4 } ∷ []; end = end.TriesSpent mount 5 6 }))
        ≡ 3 ∷ 5 ∷ [] }
    ensures cut { (mount name : Name)
        → fronts_told (reply.MergeRefused (record { tried = record { mount = mount; by = 3; front = 4; again = 4 } ∷ []; end = end.MergeConflicts (name ∷ []) }))
        ≡ 4 ∷ 4 ∷ [] }
    ensures failed { failures_told (reply.MergeRefused (record { tried = []; end = end.Set (fault.Commit (commit.DiskFault 5)) }))
        ≡ 1 }
{}

/// Of three commits, two of which the handle 1 made, one is another's.
pub fn others_are_counted()
    ensures { count_of_others 1 (record { handle = 1; touched = 0 ∷ []; changes = [] } ∷ record { handle = 2; touched = 0 ∷ []; changes = [] } ∷ record { handle = 1; touched = 1 ∷ []; changes = [] } ∷ [])
        ≡ 1 }
{}

/// A script in which the sessions 2 and 5 have steps in the first phase, 5 alone in the second, and 7 has a key in
/// `proc` alone: its sessions, and the rows of their steps and of their replies.
pub fn sessions_have_rows()
    ensures sessions { (name : Name) (one two three : List Step)
        → sessions_of (record { proc = record { session = 7; key = name; value = [] } ∷ []; phases = record { sessions = record { session = 2; steps = one } ∷ record { session = 5; steps = two } ∷ [] } ∷ record { sessions = record { session = 5; steps = three } ∷ [] } ∷ [] })
        ≡ 2 ∷ 5 ∷ 7 ∷ [] }
    ensures steps { (name : Name) (one two three : List Step)
        → step_rows (record { proc = record { session = 7; key = name; value = [] } ∷ []; phases = record { sessions = record { session = 2; steps = one } ∷ record { session = 5; steps = two } ∷ [] } ∷ record { sessions = record { session = 5; steps = three } ∷ [] } ∷ [] })
        ≡ (one ∷ two ∷ [] ∷ []) ∷ ([] ∷ three ∷ [] ∷ []) ∷ [] }
    ensures replies { (name : Name) (one two three : List Step) (a b c : List Reply)
        → reply_rows (record { proc = record { session = 7; key = name; value = [] } ∷ []; phases = record { sessions = record { session = 2; steps = one } ∷ record { session = 5; steps = two } ∷ [] } ∷ record { sessions = record { session = 5; steps = three } ∷ [] } ∷ [] })
        (record { phases = (a ∷ b ∷ []) ∷ (c ∷ []) ∷ [] })
        ≡ (a ∷ b ∷ [] ∷ []) ∷ ([] ∷ c ∷ [] ∷ []) ∷ [] }
{}
