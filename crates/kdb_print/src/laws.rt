//! What can be read from the printed text.
ghost use Rattle.std.specs.Prelude.{◌≡◌, ℕ, false, List, map as over};
ghost use Rattle.batch_script.specs.declared.steps.Script.{Script};
ghost use Rattle.batch_script.specs.declared.steps.Step.{Step};
ghost use Rattle.kdb_handle.specs.declared.replies.Reply.{Reply};
ghost use Rattle.kdb_print.specs.Printed.{printed};
ghost use Rattle.kdb_print.specs.Replies.{is_memory, some_reply};
ghost use Rattle.kdb_print.specs.Reading.{AreNamed, EditAll, IsBatch, StandAt, said_of, told};
ghost use Rattle.model_history.specs.History.{Commit};
ghost use Rattle.mount_table.specs.declared.mounts.Mount.{Mount};

/// The text tells the history, and the replies but for those to edits, the places at which wants of memory stood, and
/// whether a merge, an undo, a get or a set gave a line that others have too; where no step wanted memory, it tells all
/// replies. Where in a phase no edit of a session wanted memory, it tells which of them it was, too: then each line is
/// known to be whose.
pub fn the_text_tells_the_batch()
    ensures history { (mounts : List Mount) (sessions : List ℕ) (script : Script) (a b : List (List (List Reply)))
        (h k : List Commit) → AreNamed mounts sessions → IsBatch mounts sessions script a h
        → IsBatch mounts sessions script b k → printed mounts sessions script a h ≡ printed mounts sessions script b k
        → h ≡ k }
    ensures replies { (mounts : List Mount) (sessions : List ℕ) (script : Script) (a b : List (List (List Reply)))
        (h k : List Commit) → AreNamed mounts sessions → IsBatch mounts sessions script a h
        → IsBatch mounts sessions script b k → printed mounts sessions script a h ≡ printed mounts sessions script b k
        → over (over told) a ≡ over (over told) b }
    ensures whole { (mounts : List Mount) (sessions : List ℕ) (script : Script) (a b : List (List (List Reply)))
        (h k : List Commit) → AreNamed mounts sessions → IsBatch mounts sessions script a h
        → IsBatch mounts sessions script b k → some_reply is_memory a ≡ false
        → printed mounts sessions script a h ≡ printed mounts sessions script b k → a ≡ b }
    ensures exact { (mounts : List Mount) (sessions : List ℕ) (script : Script) (a b : List (List (List Reply)))
        (h k : List Commit) → AreNamed mounts sessions → IsBatch mounts sessions script a h
        → IsBatch mounts sessions script b k → printed mounts sessions script a h ≡ printed mounts sessions script b k
        → (p i : ℕ) (steps : List Step) (mine others : List Reply) → StandAt script a p i steps mine
        → StandAt script b p i steps others → EditAll steps mine → over said_of mine ≡ over said_of others }
{}
