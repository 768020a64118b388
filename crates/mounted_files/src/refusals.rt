//! Why a store isn't opened, and why keys aren't got.
ghost use Rattle.std.specs.Prelude.{◌≡◌, IfOk};
ghost use Rattle.mounted_files.specs.Faults.{fault_of};
ghost use Rattle.mounted_files.specs.declared.refusals.OpenRefusal.TheVariants as opening;
ghost use Rattle.mounted_files.specs.declared.refusals.GetFault.TheVariants as getting;

use crate::Cause;
use key_meta::Memory;
use key_name::KeyName;
use mount_table::TableFault;
use std::alloc::AllocError;

/// What is wrong with `elektra.ecf`, the file of the table's own keys.
#[derive(Drop)]
pub enum OpenRefusal {
    /// It has more than 1,048,576 bytes: so many.
    TooLong { bytes: u64 },
    /// It doesn't read as keys: the line, from 1. Line 0 says that the whole name of a key would be too long.
    BadFile { line: u64 },
    /// Its keys make no table.
    BadTable { fault: TableFault },
    /// Want of memory.
    Memory,
}

impl From<AllocError> for OpenRefusal {
    ghost from_gives = { λ _ refusal. refusal ≡ opening.Memory };

    fn from(_: AllocError) -> OpenRefusal {
        OpenRefusal::Memory
    }
}

/// The first mount, of those that a get involves, that is bad, and why.
#[derive(Drop)]
pub enum GetFault {
    /// Its file doesn't read as keys: the line, from 1. Line 0 says that the whole name of a key would be too long.
    BadFile { mount: KeyName, line: u64 },
    /// Its file has more than 1,048,576 bytes: so many.
    TooLong { mount: KeyName, bytes: u64 },
    /// Its visible keys bring the weight of all visible keys over 16,777,216: to this one, at most `u64::MAX`.
    TooHeavy { mount: KeyName, weight: u64 },
    /// Want of memory.
    Memory,
}

impl From<AllocError> for GetFault {
    ghost from_gives = { λ _ fault. fault ≡ getting.Memory };

    fn from(_: AllocError) -> GetFault {
        GetFault::Memory
    }
}

/// A mount is bad for a cause.
pub fn fault_of(mount: &KeyName, cause: Cause) -> Result<GetFault, Memory>
    ensures { IfOk result (λ fault. fault ≡ fault_of mount.now cause) }
{
    let mount = mount.copy()?;
    Ok(match cause {
        Cause::TooLong { bytes } => GetFault::TooLong { mount, bytes },
        Cause::BadFile { line } => GetFault::BadFile { mount, line },
        Cause::TooHeavy { weight } => GetFault::TooHeavy { mount, weight },
    })
}
