//! The opening of a store: its journal first, and then its files.
ghost use Rattle.std.specs.Prelude.{◌≡◌, ℕ, [], true, Err, IfOk, MatchResult, map as over};
ghost use Rattle.kdb_outside.specs.Faults.{HasRisen};
ghost use Rattle.model_files.specs.Files.{HaveFiles};
ghost use Rattle.model_maps.specs.KeyMap.{KeyMap};
ghost use Rattle.model_store.specs.Sound.{IsSound};
ghost use Rattle.model_store.specs.Store.{formats_of, store_of};
ghost use Rattle.mount_table.specs.Table.{own_mount};
ghost use Rattle.mounted_files.specs.Opening.{IsOpened};
ghost use Rattle.mounted_files.specs.Visible.{visible_keys};
ghost use Rattle.store_core.specs.Faults.{RefusesStore};
ghost use Rattle.store_core.specs.Frames.{OnlyReadsFiles};
ghost use Rattle.store_core.specs.Opens.{OpensFiles, OpensStore};

use crate::headed::Headed;
use crate::mounting::mount_files;
use crate::visible::visible_keys;
use crate::{Core, OpenFault, OpenRefused, Plan};
use commit_log::History;
use intent_journal::Journal;
use journal_steps::JournalRefused;
use kdb_outside::Disk;
use key_set::KeySet;
use regex_check::Patterns;
use std::alloc::Global;
use storage_api::Formats;
use store_phases::open;

/// An opened store: what the opening fixes, and what changes.
#[derive(Drop)]
pub struct Opened<D: Disk, F: Formats + Drop, P: Patterns + Drop> {
    pub plan: Plan<F>,
    pub core: Core<D, P>,
}

/// Opens the journal of a disk, reads `elektra.ecf` and then the file of each other mount of the table, each once and
/// in the table's order. Then nothing has been committed. A refusal is the first one met, and hands the disk and the
/// matcher back.
pub fn open_store<D: Disk, F: Formats + Drop, P: Patterns + Drop>(
    alloc: Global,
    disk: D,
    formats: F,
    patterns: P,
) -> Result<Opened<D, F, P>, OpenRefused<D, P>>
    ensures { OpensStore (formats_of F.Formats) F.reads F.is_bad_at D.Disk disk patterns result }
{
    match open(alloc, disk) {
        Ok(journal) => open_files(alloc, journal, formats, patterns),
        Err(JournalRefused { fault, disk }) => Err(OpenRefused {
            fault: fault.into(),
            disk,
            patterns,
        }),
    }
}

/// Mounts the files of an opened journal.
fn open_files<D: Disk, F: Formats + Drop, P: Patterns + Drop>(
    alloc: Global,
    journal: Journal<D>,
    formats: F,
    patterns: P,
) -> Result<Opened<D, F, P>, OpenRefused<D, P>>
    ensures { OpensFiles (formats_of F.Formats) F.reads F.is_bad_at D.Disk journal patterns result }
{
    let mut journal = journal;
    let wrote = journal.has_recovered();
    match first_state(alloc, &mut journal, &formats) {
        Ok(
            FirstState {
                mounted,
                history,
                start,
                keys,
            },
        ) => Ok(Opened {
            plan: Plan { formats, mounted },
            core: Core {
                journal,
                history,
                start,
                keys,
                wrote,
                patterns,
            },
        }),
        Err(fault) => Err(OpenRefused {
            fault,
            disk: journal.into_disk(),
            patterns,
        }),
    }
}

/// The files of all mounts, no commits, and the keys of all mounts, now and at the start.
#[derive(Drop)]
struct FirstState {
    mounted: Headed,
    history: History,
    start: KeySet,
    keys: KeySet,
}

/// What a store begins with.
fn first_state<D: Disk, F: Formats>(
    alloc: Global,
    journal: &mut Journal<D>,
    formats: &F,
) -> Result<FirstState, OpenFault>
    ensures told { D.tells journal.old.disk ≡ true →
        MatchResult result (λ first. IsOpened F.reads F.is_bad_at (D.seen journal.old.disk) first.mounted)
        (RefusesStore F.reads F.is_bad_at (D.seen journal.old.disk own_mount.file)) }
    ensures files { IfOk result (λ first. HaveFiles (over (λ file. file.mount) first.mounted)) }
    ensures sound { IfOk result (λ first. (procs : ℕ → KeyMap) → IsSound (formats_of F.Formats) (store_of first.mounted procs)) }
    ensures keys { IfOk result (λ first. first.keys ≡ visible_keys first.mounted) }
    ensures start { IfOk result (λ first. first.start ≡ visible_keys first.mounted) }
    ensures none { IfOk result (λ first. first.history.commits ≡ []) }
    ensures own { ((at : ℕ) → result ≡ Err (OpenFault.BadJournal at) → ⊥)
        × ((version : ℕ) → result ≡ Err (OpenFault.UnknownVersion version) → ⊥) }
    ensures cause { result ≡ Err OpenFault.DiskFault
        → HasRisen (D.faults journal.old.disk) (D.faults journal.new.disk) }
    ensures reads { OnlyReadsFiles D.Disk journal.old journal.new }
{
    let mounted = mount_files(alloc, journal, formats)?;
    let history = History::new(alloc, mounted.table().len())?;
    let start = visible_keys(alloc, mounted.files())?;
    let keys = start.copy()?;
    let mounted = Headed::new(alloc, mounted)?;
    Ok(FirstState {
        mounted,
        history,
        start,
        keys,
    })
}
