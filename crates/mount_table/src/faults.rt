//! Why keys make no mount table, or why an entry is neither added nor removed.
ghost use Rattle.std.specs.Prelude.{◌≡◌};
ghost use Rattle.mount_table.specs.declared.faults.TableFault.TheVariants.{Memory as OutOfMemory};

use key_meta::Text;
use std::alloc::AllocError;

/// What is wrong. `entry` is the text of the entry, which is meant to be its mountpoint.
#[derive(Drop)]
pub enum TableFault {
    /// The text isn't the canonical spelling, of at most 1,024 bytes, of a name in spec, dir, user or system, or it is
    /// `system:/elektra` or below it.
    BadMountpoint { entry: Text },
    /// The entry has no child `path`.
    NoPath { entry: Text },
    /// The path is no file's name, or begins with `journal`.
    BadPath { entry: Text },
    /// The child `plugin` is there, and its word is no format's.
    UnknownPlugin { entry: Text },
    /// The file is that of a default mount that remains, or that of an earlier entry.
    FileTwice { entry: Text },
    /// The child `conflicts` is there, and its word is neither `backend` nor `keys`, or it is `keys` and the format is
    /// neither dump nor simpleini.
    BadConflicts { entry: Text },
    /// There are more than 64 mounts.
    TooMany { count: u64 },
    /// An entry is to be added that is there.
    AlreadyMounted { entry: Text },
    /// An entry is to be removed that isn't there.
    NotMounted { entry: Text },
    /// Want of memory.
    Memory,
}

impl From<AllocError> for TableFault {
    ghost from_gives = { λ _ fault. fault ≡ OutOfMemory };

    fn from(_: AllocError) -> TableFault {
        TableFault::Memory
    }
}
