//! The answers of a reader and of a writer when they can't do their work.
ghost use Rattle.std.specs.Prelude.{◌≡◌};
ghost use Rattle.storage_api.specs.declared.refusals.ReadRefusal.TheVariants as read;
ghost use Rattle.storage_api.specs.declared.refusals.WriteRefusal.TheVariants as write;

use key_name::KeyName;
use std::alloc::AllocError;

/// Why bytes are read as no map.
#[derive(Clone, Copy, Debug, PartialEq, Eq)]
pub enum ReadRefusal {
    /// The line, from 1, with which the first thing begins that has no reading.
    BadFile { line: u64 },
    /// Want of memory.
    Memory,
}

impl From<AllocError> for ReadRefusal {
    ghost from_gives = { λ _ refusal. refusal ≡ read.Memory };

    fn from(_: AllocError) -> ReadRefusal {
        ReadRefusal::Memory
    }
}

/// Why a map is written as no bytes.
#[derive(Drop)]
pub enum WriteRefusal {
    /// The format can't hold this key.
    NotStorable { key: KeyName },
    /// Want of memory.
    Memory,
}

impl From<AllocError> for WriteRefusal {
    ghost from_gives = { λ _ refusal. refusal ≡ write.Memory };

    fn from(_: AllocError) -> WriteRefusal {
        WriteRefusal::Memory
    }
}
