//! What the bytes of a file hold for a mountpoint.
ghost use Rattle.std.specs.Prelude.{◌≡◌, ◌≤◌, IfOk, List, ℕ, length};
ghost use Rattle.backend_files.specs.WholeFile.{IsWhole, longest_file};
ghost use Rattle.mounted_files.specs.Holding.{IsAlone, IsHolding, IsShortHolding};
ghost use Rattle.mounted_files.specs.Writable.{CanBeStored};
ghost use Rattle.mounted_files.specs.declared.causes.Cause.TheVariants.{BadFile};
ghost use Rattle.mounted_files.specs.declared.holding.Holding.TheVariants.{Bad};

use crate::Cause;
use crate::whole::whole;
use backend_files::FileRead;
use kdb_outside::Kind;
use key_meta::Memory;
use key_name::KeyName;
use key_set::KeySet;
use std::alloc::{AllocError, Global};
use storage_api::{Formats, ReadRefusal};

/// Keys under whole names, or why there are none, which is never what other files weigh.
#[derive(Drop)]
pub enum Holding {
    Keys { keys: KeySet },
    Bad { cause: Cause },
}

/// What a file holds, given what it gave. A file can take the keys again.
pub fn read_holding<F: Formats>(
    alloc: Global,
    formats: &F,
    point: &KeyName,
    kind: Kind,
    read: &FileRead,
) -> Result<Holding, Memory>
    ensures is { IfOk result (λ holding. (bytes : List ℕ) → IsWhole bytes read.now → IsHolding F.reads F.is_bad_at point.now kind bytes holding) }
    ensures short { IfOk result IsShortHolding }
    ensures alone { IfOk result IsAlone }
    ensures storable { IfOk result (CanBeStored F.is_storable point.now kind) }
{
    match read {
        FileRead::Bytes(bytes) => holding_of(alloc, formats, point, kind, bytes.as_slice()),
        FileRead::TooLong { bytes } => Ok(Holding::Bad {
            cause: Cause::TooLong { bytes: *bytes },
        }),
    }
}

/// What some bytes hold.
fn holding_of<F: Formats>(
    alloc: Global,
    formats: &F,
    point: &KeyName,
    kind: Kind,
    bytes: &[u8],
) -> Result<Holding, Memory>
    ensures is { IfOk result (λ holding. length bytes.now ≤ longest_file → IsHolding F.reads F.is_bad_at point.now kind bytes.now holding) }
    ensures short { IfOk result IsShortHolding }
    ensures alone { IfOk result IsAlone }
    ensures storable { IfOk result (CanBeStored F.is_storable point.now kind) }
{
    match formats.read(alloc, kind, bytes) {
        Ok(keys) => match whole(point, keys)? {
            Some(keys) => Ok(Holding::Keys { keys }),
            None => Ok(bad_at(0)),
        },
        Err(ReadRefusal::BadFile { line }) => Ok(bad_at(line)),
        Err(ReadRefusal::Memory) => Err(AllocError),
    }
}

fn bad_at(line: u64) -> Holding
    ensures { result ≡ Bad (BadFile line) }
{
    Holding::Bad {
        cause: Cause::BadFile { line },
    }
}
