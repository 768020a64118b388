//! What becomes of a set that undoes a commit: it changes just the inverse, and nothing of the history stands in its
//! way. Definitions for the crates above, with their laws.
#![tactic(auto)]

ghost use Rattle.std.specs.Prelude.{◌≡◌, ℕ, List, Option, Some};
ghost use Rattle.std.specs.FinMap as map;
ghost use Rattle.key_name.specs.Owner.{IsPoints};
ghost use Rattle.model_history.specs.History.{Commit, replay};
ghost use Rattle.model_maps.specs.Entry.{Entry};
ghost use Rattle.model_maps.specs.KeyMap.{KeyMap};
ghost use Rattle.model_names.specs.Name.{Name};
ghost use Rattle.model_names.specs.declared.namespaces.Namespace.TheVariants.{Proc};
ghost use Rattle.model_store.specs.Events.{got};
ghost use Rattle.model_store.specs.Fitting.{Early, NotFetched};
ghost use Rattle.model_store.specs.Legal.{IsLegal};
ghost use Rattle.model_store.specs.Records.{Record};
ghost use Rattle.model_store.specs.Store.{Store, formats_of, points_of};
ghost use Rattle.model_store.specs.Verdicts.{Conflict, IsEarly, IsLate, Same};
ghost use Rattle.model_undo.specs.Undoing.{IsThere, inverse};
ghost use Rattle.model_undone.specs.UndoSets.{CanUndo, undo_parent, undo_set};

use storage_api::Formats;

/// The changes of the set that undoes a commit are the inverse of the commit, in its order.
pub fn an_undo_changes_the_inverse<F: Formats>(_formats: &F)
    ensures { (store : Store) (history : List Commit) (handle number : ℕ) (parent : Name) (rec : Record) (keys : KeyMap)
        → CanUndo (formats_of F.Formats) store history parent keys number
        → map.entries (undo_set store history handle parent rec keys number).changes
        ≡ inverse store.start history number }
{}

/// The set that undoes a commit is never refused for a mount that was not fetched, comes to no conflict, and touches
/// some mount.
pub fn nothing_stands_in_the_way_of_an_undo<F: Formats>(_formats: &F)
    ensures fetched { (store : Store) (history : List Commit) (handle number m : ℕ) (parent : Name) (rec : Record)
        (keys : KeyMap) → CanUndo (formats_of F.Formats) store history parent keys number
        → IsEarly (formats_of F.Formats) store (undo_set store history handle parent rec keys number) (Some (NotFetched m))
        → ⊥ }
    ensures free { (store : Store) (history : List Commit) (handle number m by : ℕ) (parent : Name) (rec : Record)
        (keys : KeyMap) → CanUndo (formats_of F.Formats) store history parent keys number
        → IsLate (formats_of F.Formats) store history (replay store.start history) (undo_set store history handle parent rec keys number) (Conflict m by)
        → ⊥ }
    ensures some { (store : Store) (history : List Commit) (handle number aside : ℕ) (parent : Name) (rec : Record)
        (keys : KeyMap) → CanUndo (formats_of F.Formats) store history parent keys number
        → IsLate (formats_of F.Formats) store history (replay store.start history) (undo_set store history handle parent rec keys number) (Same aside)
        → ⊥ }
{}

/// A commit of a legal history that no later one overtakes can be undone from what a get of its parent gives, whatever
/// keys the handle has in `proc`.
pub fn a_get_shows_what_is_to_be_undone<F: Formats>(_formats: &F)
    ensures { (store : Store) (procs : ℕ → KeyMap) (history : List Commit) (handle number : ℕ)
        → IsPoints (points_of store)
        → ((name : Name) (entry : Entry) → map.get (procs handle) name ≡ Some entry → name.namespace ≡ Proc)
        → IsLegal (formats_of F.Formats) store history → IsThere history number
        → CanUndo (formats_of F.Formats) store history (undo_parent store history number) (got (record store { procs = procs }) (replay store.start history) handle (undo_parent store history number)) number }
{}
