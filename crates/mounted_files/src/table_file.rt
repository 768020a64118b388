//! The mount table, read from the file of its own keys.
ghost use Rattle.std.specs.Prelude.{◌≡◌, MatchResult, IfOk, ℕ, List, Ok};
ghost use Rattle.backend_files.specs.WholeFile.{IsWhole};
ghost use Rattle.mount_table.specs.Points.{own_point};
ghost use Rattle.mount_table.specs.Table.{table_of};
ghost use Rattle.kdb_outside.specs.declared.kinds.Kind.TheVariants.{Dump};
ghost use Rattle.mounted_files.specs.Files.{Holds};
ghost use Rattle.mounted_files.specs.Holding.{IsOfFile};
ghost use Rattle.mounted_files.specs.Opening.{RefusesOpening};
ghost use Rattle.mounted_files.specs.Refusing.{IsRefusalFor, RefusesTable};
ghost use Rattle.mounted_files.specs.Short.{AreShort};
ghost use Rattle.mounted_files.specs.Writable.{CanBeTable};

use crate::holding::{Holding, read_holding};
use crate::{Cause, OpenRefusal};
use backend_files::FileRead;
use kdb_outside::Kind;
use key_meta::Memory;
use key_name::{KeyName, NameFault, Namespace};
use key_set::KeySet;
use mount_table::{MountTable, TableFault};
use std::alloc::{AllocError, Global};
use storage_api::Formats;

/// The keys that the table's own file holds, under whole names, and the table that they make.
#[derive(Drop)]
pub struct TableFile {
    pub table: MountTable,
    pub keys: KeySet,
}

/// The table that the keys of `elektra.ecf` make, and these keys, given what that file gave.
pub fn read_table_file<F: Formats>(
    alloc: Global,
    formats: &F,
    own: &FileRead,
) -> Result<TableFile, OpenRefusal>
    ensures read { (bytes : List ℕ) → IsWhole bytes own.now
        → MatchResult result (λ read. Holds F.reads own_point Dump bytes read.keys) (RefusesOpening F.reads F.is_bad_at bytes) }
    ensures table { IfOk result (λ read. table_of read.keys ≡ Ok read.table) }
    ensures short { IfOk result (λ read. AreShort read.keys) }
    ensures storable { IfOk result (λ read. CanBeTable F.is_storable read.keys) }
{
    let point = own_point(alloc)?;
    match read_holding(alloc, formats, &point, Kind::Dump, own)? {
        Holding::Keys { keys } => match table_of(alloc, &keys) {
            Ok(table) => Ok(TableFile { table, keys }),
            Err(refusal) => Err(refusal),
        },
        Holding::Bad { cause } => Err(refusal_of(cause)),
    }
}

/// The mountpoint of the table's own keys.
fn own_point(alloc: Global) -> Result<KeyName, Memory>
    ensures { IfOk result (λ point. point ≡ own_point) }
{
    match KeyName::root(alloc, Namespace::System).child("elektra") {
        Ok(point) => Ok(point),
        Err(NameFault::Memory) => Err(AllocError),
        Err(_) => unreachable!(),
    }
}

/// The table that some keys make.
fn table_of(alloc: Global, keys: &KeySet) -> Result<MountTable, OpenRefusal>
    ensures { MatchResult result (λ table. table_of keys.now ≡ Ok table) (RefusesTable (table_of keys.now)) }
{
    match MountTable::read_table(alloc, keys) {
        Ok(table) => Ok(table),
        Err(TableFault::Memory) => Err(OpenRefusal::Memory),
        Err(fault) => Err(OpenRefusal::BadTable { fault }),
    }
}

/// Why a store isn't opened whose own file is bad.
fn refusal_of(cause: Cause) -> OpenRefusal
    requires { IsOfFile cause }
    ensures { IsRefusalFor cause result }
{
    match cause {
        Cause::TooLong { bytes } => OpenRefusal::TooLong { bytes },
        Cause::BadFile { line } => OpenRefusal::BadFile { line },
        Cause::TooHeavy { .. } => unreachable!(),
    }
}
