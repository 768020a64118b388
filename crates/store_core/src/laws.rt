//! How a core goes on standing for what the definitions say. Nothing here runs: each function stands for its contract.
ghost use Rattle.std.specs.Prelude.{◌≡◌, ◌≤◌, ℕ, Option, Some, true, length};
ghost use Rattle.model_crashes.specs.Runs.{Run};
ghost use Rattle.model_maps.specs.KeyMap.{KeyMap};
ghost use Rattle.model_names.specs.Name.{Name};
ghost use Rattle.model_store.specs.Cores.{accepts};
ghost use Rattle.model_store.specs.Events.{Answer, Commit};
ghost use Rattle.model_store.specs.Records.{Record};
ghost use Rattle.model_store.specs.Sets.{Prepared};
ghost use Rattle.model_store.specs.Store.{Store, formats_of};
ghost use Rattle.model_store.specs.Worlds.{World, Meant};
ghost use Rattle.store_core.specs.Committing.{IsCommitted};
ghost use Rattle.store_core.specs.Cores.{StandsFor, StandsIn};
ghost use Rattle.store_core.specs.Joined.{BelongsIn};
ghost use Rattle.store_verdict.specs.Preparing.{IsMade};
ghost use Rattle.store_verdict.specs.PreparedView.{prepared_of};
ghost use Rattle.store_verdict.specs.RecordView.{handle_of, places_of, record_of};

use crate::Core;
use kdb_outside::Disk;
use regex_check::Patterns;
use storage_api::Formats;
use store_verdict as verdict;

/// A core that stands for a world and a run stands, behind a commit with any answer, for what that answer means: for
/// the next world of the handles, and for the run that goes on by it.
pub fn a_core_stands_after_each_commit<D: Disk, F: Formats, P: Patterns + Drop>(
    before: &Core<D, P>,
    after: &Core<D, P>,
    _formats: &F,
)
    ensures { (store : Store) (opened : D) (records next : ℕ → Record) (sets : ℕ → Option Prepared) (world : World)
        (run later : Run) (r p : ℕ) (answer : Answer)
        → StandsFor (formats_of F.Formats) D.Disk store opened before.now records sets world run
        → IsCommitted (formats_of F.Formats) D.Disk store opened before.now after.now records next sets run later r p answer
        → (then_world : World) × Meant (formats_of F.Formats) store world (Commit r p) answer then_world
        × StandsFor (formats_of F.Formats) D.Disk store opened after.now next sets then_world later }
{}

/// A set that was prepared for a store, and that its record accepts now, may be committed, where the core stands with
/// that record and that set.
pub fn a_prepared_set_may_be_committed<D: Disk, F: Formats, P: Patterns + Drop>(
    core: &Core<D, P>,
    rec: &verdict::Record,
    prepared: &verdict::Prepared,
    _formats: &F,
)
    ensures { (store : Store) (records : ℕ → Record) (sets : ℕ → Option Prepared) (world : World) (p handle : ℕ)
        (before : Record) (parent : Name) (keys : KeyMap)
        → StandsIn (formats_of F.Formats) store core.now records sets world
        → records (handle_of rec.now) ≡ record_of rec.now → length store.mounts ≤ places_of rec.now
        → sets p ≡ Some (prepared_of prepared.now)
        → accepts (record_of rec.now) (handle_of rec.now) (prepared_of prepared.now) ≡ true
        → IsMade (formats_of F.Formats) store handle before parent keys prepared.now
        → BelongsIn (formats_of F.Formats) store core.now records sets world p rec.now prepared.now }
{}
