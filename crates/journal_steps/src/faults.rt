//! Why a journal can't be opened.
ghost use Rattle.std.specs.Prelude.{◌≡◌};
ghost use Rattle.journal_steps.specs.declared.faults.JournalFault.TheVariants.{DiskFault as OfDisk, Memory as OfMemory};

use kdb_outside::Failed;
use std::alloc::AllocError;

/// Why a journal isn't opened.
#[derive(Clone, Copy, Debug, PartialEq, Eq)]
pub enum JournalFault {
    DiskFault,
    /// A gate is open, and no whole body of an entry stands behind it: the place in the body where it isn't whole.
    BadJournal { at: u64 },
    /// The journal's header gate is open, and the version behind it isn't one that this program knows.
    UnknownVersion { version: u8 },
    Memory,
}

impl From<Failed> for JournalFault {
    ghost from_gives = { λ _ fault. fault ≡ OfDisk };

    fn from(_: Failed) -> JournalFault {
        JournalFault::DiskFault
    }
}

impl From<AllocError> for JournalFault {
    ghost from_gives = { λ _ fault. fault ≡ OfMemory };

    fn from(_: AllocError) -> JournalFault {
        JournalFault::Memory
    }
}

/// A journal that wasn't opened: why, and the disk that was handed in.
#[derive(Drop)]
pub struct JournalRefused<D> {
    pub fault: JournalFault,
    pub disk: D,
}
