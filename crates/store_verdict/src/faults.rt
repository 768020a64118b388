//! Why nothing is prepared.
ghost use Rattle.std.specs.Prelude.{◌≡◌};
ghost use Rattle.store_verdict.specs.declared.faults.PrepareFault.TheVariants.{Memory};

use key_name::KeyName;
use mount_table::TableFault;
use std::alloc::AllocError;

/// What is refused of a set before the history is asked. Numbers of bytes and weights are at most `u64::MAX`.
#[derive(Drop)]
pub enum PrepareFault {
    /// The handle has not fetched a mount that the parent involves.
    NotFetched { mount: KeyName },
    /// A value or a metadata text has more than 65,536 bytes: so many.
    ValueTooLong { key: KeyName, bytes: u64 },
    /// The format of a mount can't hold a key.
    NotStorable { mount: KeyName, key: KeyName },
    /// The file of a mount would hold keys that weigh more than 16,777,216, or have more than 1,048,576 bytes: so many.
    FileTooLarge { mount: KeyName, bytes: u64 },
    /// The keys below `system:/elektra` would make no table.
    BadTable { fault: TableFault },
    /// Want of memory.
    Memory,
}

impl From<AllocError> for PrepareFault {
    ghost from_gives = { λ _ fault. fault ≡ Memory };

    fn from(_: AllocError) -> PrepareFault {
        PrepareFault::Memory
    }
}
