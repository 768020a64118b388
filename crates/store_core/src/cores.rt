//! What an opening fixes, and what changes while the store is open.
ghost use Rattle.std.specs.Prelude.{◌≡◌, map as over};
ghost use Rattle.journal_codec.specs.Header.{header_bytes};
ghost use Rattle.store_core.specs.Heads.{names_at};

use crate::headed::Headed;
use commit_log::History;
use intent_journal::Journal;
use kdb_outside::Disk;
use key_set::KeySet;
use mount_table::MountTable;
use mounted_files::Mounted;
use regex_check::Patterns;
use storage_api::Formats;

/// What an opening fixes: the formats, and the mounts with what their files held, and with the header of the journal
/// that names these files.
#[derive(Drop)]
pub struct Plan<F: Formats + Drop> {
    pub(crate) formats: F,
    pub(crate) mounted: Headed,
}

impl<F: Formats + Drop> Plan<F> {
    /// The table of the mounts.
    pub fn table(&self) -> &MountTable
        ensures { result.now ≡ over (λ file. file.mount) self.now.mounted }
    {
        self.mounted().table()
    }

    /// The mounts with what their files held when the store was opened.
    pub fn mounted(&self) -> &Mounted
        ensures { result.now ≡ self.now.mounted }
    {
        self.mounted.mounted()
    }

    /// The header of the journal that names the files of the mounts.
    pub(crate) fn header(&self) -> &[u8]
        ensures { result.now ≡ header_bytes (names_at (over (λ file. file.mount) self.now.mounted)) }
    {
        self.mounted.header()
    }
}

/// What changes: the journal over the disk, the commits since the opening, the keys of all mounts after them, whether
/// anything was written to the disk since the opening began, and what matches the patterns of the rules. The keys that
/// the opening found stay beside them: the history leads from these to those after it.
#[derive(Drop)]
pub struct Core<D: Disk, P: Patterns + Drop> {
    pub(crate) journal: Journal<D>,
    pub(crate) history: History,
    pub(crate) start: KeySet,
    pub(crate) keys: KeySet,
    pub(crate) wrote: bool,
    pub(crate) patterns: P,
}

impl<D: Disk, P: Patterns + Drop> Core<D, P> {
    /// The commits since the opening.
    pub fn history(&self) -> &History
        ensures { result.now ≡ self.now.history }
    {
        &self.history
    }

    /// The keys that the opening found.
    pub fn start(&self) -> &KeySet
        ensures { result.now ≡ self.now.start }
    {
        &self.start
    }
}
