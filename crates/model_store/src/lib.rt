//! What a store means: records, sets, verdicts, legal histories, and what one owner is promised over every list of
//! events. Definitions for the crates above, with their laws.
#![tactic(auto)]

mod examples;
mod opened;

ghost use Rattle.std.specs.Prelude.{◌≡◌, ◌≢◌, ℕ, ◌+◌, ◌≤◌, Bool, true, false, List, [], length, take, slice_get, Option, Some, None};
ghost use Rattle.std.specs.Bool.{Decides};
ghost use Rattle.kdb_outside.specs.Faults.{HasRisen};
ghost use Rattle.model_history.specs.History as past;
ghost use Rattle.model_maps.specs.KeyMap.{KeyMap, weight, heaviest_map};
ghost use Rattle.model_names.specs.Name.{Name};
ghost use Rattle.model_rules.specs.Rules.{longest_pattern};
ghost use Rattle.model_specified.specs.declared.violations.Violation.{Violation};
ghost use Rattle.model_store.specs.Records.{Record, kept_at, seen_from};
ghost use Rattle.model_store.specs.Store.{Store, by_backend, counts_keys, formats_of, points_of};
ghost use Rattle.set_split.specs.Parts.{owned_by};
ghost use Rattle.std.specs.FinMap as map;
ghost use Rattle.model_store.specs.Events.{Event, Answer};
ghost use Rattle.model_store.specs.Cores.{Core, accepts, first_core, keeping, storing, Made};
ghost use Rattle.model_store.specs.First.{first_set};
ghost use Rattle.model_store.specs.Fitting.{Early, NotFetched};
ghost use Rattle.model_store.specs.Promise.{Runs, IsOneOwner, Stands};
ghost use Rattle.model_store.specs.Remaking.{CanRemake};
ghost use Rattle.model_store.specs.Rules.{has_risen};
ghost use Rattle.model_store.specs.Sound.{IsSound};
ghost use Rattle.model_store.specs.Sets.{Prepared};
ghost use Rattle.model_store.specs.Verdicts.{Conflict, HistoryFull, Invalid, IsEarly, IsLate, Late, TooLarge, blocking, blocking_behind, conflict, is_certain, too_large};
ghost use Rattle.model_store.specs.Worlds.{World, first_world, Meant};

pub use examples::{
    a_set_without_changes_comes_to_nothing, an_unseen_mount_is_refused_first,
    by_key_a_change_of_the_same_name_blocks, by_key_a_handle_keeps_its_own_changes,
    the_lowest_blocked_mount_is_told,
};
pub use opened::opened_files_make_a_sound_store;
use storage_api::Formats;

/// Whatever is asked of a sound store in whatever order, by any number of handles: where each call does with what is
/// kept as its contract says, each answer is the verdict of the definitions, the history is legal, and each record and
/// each prepared set is theirs.
pub fn a_store_has_one_owner<F: Formats>(_formats: &F)
    ensures { (store : Store) → IsSound (formats_of F.Formats) store → (calls : List (Event × Answer)) (core : Core)
        → Runs (Made (formats_of F.Formats) store) (first_core store) calls core
        → IsOneOwner (formats_of F.Formats) store calls core }
{}

/// Where a core stands for a world, the files of a set that a record accepts and that nothing blocks can be made anew
/// of the map after it: also of mounts by key, whose files then hold what others changed beside it.
pub fn the_files_of_an_accepted_set_can_be_made_anew<F: Formats>(_formats: &F)
    ensures { (store : Store) (world : World) (core : Core) → Stands (formats_of F.Formats) store world core
        → (r p : ℕ) (set : Prepared) → core.sets p ≡ Some set → accepts (core.records r) r set ≡ true
        → conflict store core.history set ≡ None → CanRemake (formats_of F.Formats) store core.keys set }
{}

/// The commit that blocks a mount of a set with its handle's front of it is another handle's: by its backend an own
/// commit is seen as it is made, and by key own commits are passed over.
pub fn only_others_block<F: Formats>(_formats: &F)
    ensures { (store : Store) (calls : List (Event × Answer)) (world : World)
        → Runs (Meant (formats_of F.Formats) store) first_world calls world
        → (set : Prepared) (m number : ℕ) (commit : past.Commit) → set.fronts m ≡ world.fronts set.handle m
        → blocking store world.history set m ≡ Some (number + 1) → slice_get world.history number ≡ Some commit
        → commit.handle ≢ set.handle }
{}

/// A set has one verdict before the history is asked. By the history it is absurd that it has none, and it has one at
/// most of those that no refusal of a pattern can have changed. Rule 6 with a pattern of at most 1,024 bytes is never
/// one of these.
pub fn a_set_has_one_verdict<F: Formats>(_formats: &F)
    ensures some_early { (store : Store) (set : Prepared)
        → (early : Option Early) × IsEarly (formats_of F.Formats) store set early }
    ensures one_early { (store : Store) (set : Prepared) (early other : Option Early) →
        IsEarly (formats_of F.Formats) store set early → IsEarly (formats_of F.Formats) store set other → early ≡ other }
    ensures some_late { (store : Store) (history : List past.Commit) (keys : KeyMap) (set : Prepared)
        → ((late : Late) → IsLate (formats_of F.Formats) store history keys set late → ⊥) → ⊥ }
    ensures one_late { (store : Store) (history : List past.Commit) (keys : KeyMap) (set : Prepared) (late other : Late)
        → is_certain late ≡ true → is_certain other ≡ true
        → IsLate (formats_of F.Formats) store history keys set late
        → IsLate (formats_of F.Formats) store history keys set other → late ≡ other }
    ensures refused { (store : Store) (history : List past.Commit) (keys : KeyMap) (set : Prepared)
        (violation : Violation) (risen : Bool)
        → IsLate (formats_of F.Formats) store history keys set (Invalid violation risen)
        → violation.rule ≡ 6 → length violation.given ≤ longest_pattern → risen ≡ true }
{}

/// The set of a handle that got its parent before any commit is judged by itself: it has seen the mounts that it
/// involves, no commit blocks it, where the first map isn't too heavy the history has room for it, and where it passed
/// it makes no file too large. So it is refused by the history for a rule or the weight of the map alone.
pub fn a_first_set_is_judged_alone<F: Formats>(_formats: &F)
    ensures fetched { (store : Store) (handle : ℕ) (parent : Name) (keys : KeyMap) (early : Option Early) (m : ℕ) →
        IsEarly (formats_of F.Formats) store (first_set store handle parent keys) early → early ≢ Some (NotFetched m) }
    ensures free { (store : Store) (handle : ℕ) (parent : Name) (keys : KeyMap) (late : Late) (m by : ℕ)
        → IsLate (formats_of F.Formats) store [] store.start (first_set store handle parent keys) late
        → late ≢ Conflict m by }
    ensures room { (store : Store) (handle : ℕ) (parent : Name) (keys : KeyMap) (late : Late) (n : ℕ) →
        weight store.start ≤ heaviest_map → IsLate (formats_of F.Formats) store [] store.start (first_set store handle parent keys) late → late ≢ HistoryFull n }
    ensures small { (store : Store) (handle : ℕ) (parent : Name) (keys : KeyMap) (late : Late) (m n : ℕ) →
        IsEarly (formats_of F.Formats) store (first_set store handle parent keys) None → IsLate (formats_of F.Formats) store [] store.start (first_set store handle parent keys) late → late ≢ TooLarge m n }
{}

/// Where no mount counts conflicts by key, all is as if there were no such mounts: the first later commit that touches
/// a mount blocks it, a handle has of a mount what it had at the front, a commit moves the fronts and copies of all
/// touched mounts, and no file is found too large by the history.
pub fn without_mounts_by_key_all_goes_by_backend<F: Formats>(_formats: &F)
    ensures blocking { (store : Store) → ((m : ℕ) → counts_keys store m ≡ false)
        → (history : List past.Commit) (set : Prepared) (m front : ℕ)
        → blocking_behind store history set m front ≡ past.first_after history m front }
    ensures kept { (store : Store) → ((m : ℕ) → counts_keys store m ≡ false)
        → (history : List past.Commit) (handle m front : ℕ)
        → kept_at store history handle m front
        ≡ owned_by (points_of store) m (past.replay store.start (take front history)) }
    ensures fronts { (store : Store) → ((m : ℕ) → counts_keys store m ≡ false) → (mounts : List ℕ)
        → by_backend store mounts ≡ mounts }
    ensures stored { (store : Store) → ((m : ℕ) → counts_keys store m ≡ false)
        → (mounts : List ℕ) (number : ℕ) (keys : ℕ → KeyMap) (rec : Record) (m : ℕ)
        → (storing store mounts number keys rec).fetched m ≡ (keeping mounts number keys rec).fetched m }
    ensures small { (store : Store) → ((m : ℕ) → counts_keys store m ≡ false) → (keys : KeyMap) (set : Prepared)
        → too_large (formats_of F.Formats) store keys set ≡ None }
{}

/// A name that no other handle changed behind a front is in the present map what a handle has of it that counts by key
/// from this front on.
pub fn a_name_that_nobody_else_changed_is_as_seen()
    ensures { (start : KeyMap) (history : List past.Commit) (handle front : ℕ) (name : Name)
        → past.first_change_after history name front handle ≡ None
        → map.get (past.replay start history) name ≡ map.get (seen_from true start history handle front) name }
{}

/// The test of a count tells just whether it rose.
pub fn the_test_of_a_count_decides()
    ensures { (before now : ℕ) → Decides (has_risen before now) (HasRisen before now) }
{}
