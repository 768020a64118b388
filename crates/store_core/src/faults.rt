//! Why a store isn't opened.
ghost use Rattle.std.specs.Prelude.{◌≡◌};
ghost use Rattle.store_core.specs.Faults.{of_file, of_journal, of_refusal};
ghost use Rattle.store_core.specs.declared.faults.OpenFault.TheVariants.{Memory as OfMemory};

use backend_files::FileFault;
use journal_steps::JournalFault;
use mount_table::TableFault;
use mounted_files::OpenRefusal;
use std::alloc::AllocError;

/// Why a store isn't opened: the first refusal met.
#[derive(Drop)]
pub enum OpenFault {
    DiskFault,
    /// The head of the journal, or an open entry of it or of the former one, isn't whole.
    BadJournal { at: u64 },
    /// The journal has a version that isn't known.
    UnknownVersion { version: u8 },
    /// The keys of `elektra.ecf` make no table.
    BadTable { fault: TableFault },
    /// `elektra.ecf` has more than 1,048,576 bytes: so many.
    TooLong { bytes: u64 },
    /// `elektra.ecf` doesn't read as keys: the line, from 1. Line 0 says that the whole name of a key would be too
    /// long.
    BadFile { line: u64 },
    Memory,
}

impl From<AllocError> for OpenFault {
    ghost from_gives = { λ _ fault. fault ≡ OfMemory };

    fn from(_: AllocError) -> OpenFault {
        OpenFault::Memory
    }
}

impl From<FileFault> for OpenFault {
    ghost from_gives = { λ failed fault. fault ≡ of_file failed };

    fn from(failed: FileFault) -> OpenFault {
        match failed {
            FileFault::DiskFault => OpenFault::DiskFault,
            FileFault::Memory => OpenFault::Memory,
        }
    }
}

impl From<JournalFault> for OpenFault {
    ghost from_gives = { λ failed fault. fault ≡ of_journal failed };

    fn from(failed: JournalFault) -> OpenFault {
        match failed {
            JournalFault::DiskFault => OpenFault::DiskFault,
            JournalFault::BadJournal { at } => OpenFault::BadJournal { at },
            JournalFault::UnknownVersion { version } => OpenFault::UnknownVersion { version },
            JournalFault::Memory => OpenFault::Memory,
        }
    }
}

impl From<OpenRefusal> for OpenFault {
    ghost from_gives = { λ refusal fault. fault ≡ of_refusal refusal };

    fn from(refusal: OpenRefusal) -> OpenFault {
        match refusal {
            OpenRefusal::TooLong { bytes } => OpenFault::TooLong { bytes },
            OpenRefusal::BadFile { line } => OpenFault::BadFile { line },
            OpenRefusal::BadTable { fault } => OpenFault::BadTable { fault },
            OpenRefusal::Memory => OpenFault::Memory,
        }
    }
}

/// A store that wasn't opened: why, and the disk and the matcher that were handed in.
#[derive(Drop)]
pub struct OpenRefused<D, P> {
    pub fault: OpenFault,
    pub disk: D,
    pub patterns: P,
}
