//! The lines of files, of sets and of the journal.
ghost use Rattle.std.specs.Prelude.{◌≡◌, IfOk, string_bytes};
ghost use Rattle.store_lines.specs.Lines.{too_long, bad_file, too_heavy, not_fetched, value_too_long, file_too_large, not_storable, database_full, history_full, bad_journal, unknown_journal};

use kdb_text::shown;
use key_meta::Memory;
use key_name::KeyName;
use std::alloc::Global;

pub fn too_long(alloc: Global, mount: &KeyName, bytes: u64) -> Result<String, Memory>
    ensures { IfOk result (λ text. string_bytes text ≡ too_long mount.now bytes) }
{
    let mount = shown(alloc, mount)?;
    format!(in alloc; "C01100 too-long {mount} {bytes}")
}

pub fn bad_file(alloc: Global, mount: &KeyName, line: u64) -> Result<String, Memory>
    ensures { IfOk result (λ text. string_bytes text ≡ bad_file mount.now line) }
{
    let mount = shown(alloc, mount)?;
    format!(in alloc; "C03100 bad-file {mount} {line}")
}

pub fn too_heavy(alloc: Global, mount: &KeyName, weight: u64) -> Result<String, Memory>
    ensures { IfOk result (λ text. string_bytes text ≡ too_heavy mount.now weight) }
{
    let mount = shown(alloc, mount)?;
    format!(in alloc; "C01100 too-heavy {mount} {weight}")
}

pub fn not_fetched(alloc: Global, mount: &KeyName) -> Result<String, Memory>
    ensures { IfOk result (λ text. string_bytes text ≡ not_fetched mount.now) }
{
    let mount = shown(alloc, mount)?;
    format!(in alloc; "C01320 not-fetched {mount}")
}

pub fn value_too_long(alloc: Global, name: &KeyName, bytes: u64) -> Result<String, Memory>
    ensures { IfOk result (λ text. string_bytes text ≡ value_too_long name.now bytes) }
{
    let name = shown(alloc, name)?;
    format!(in alloc; "C01100 value-too-long {name} {bytes}")
}

/// The amount is a weight, or a length in bytes.
pub fn file_too_large(alloc: Global, mount: &KeyName, amount: u64) -> Result<String, Memory>
    ensures { IfOk result (λ text. string_bytes text ≡ file_too_large mount.now amount) }
{
    let mount = shown(alloc, mount)?;
    format!(in alloc; "C01100 file-too-large {mount} {amount}")
}

pub fn not_storable(alloc: Global, mount: &KeyName, key: &KeyName) -> Result<String, Memory>
    ensures { IfOk result (λ text. string_bytes text ≡ not_storable mount.now key.now) }
{
    let mount = shown(alloc, mount)?;
    let key = shown(alloc, key)?;
    format!(in alloc; "C03200 not-storable {mount} {key}")
}

pub fn database_full(alloc: Global, weight: u64) -> Result<String, Memory>
    ensures { IfOk result (λ text. string_bytes text ≡ database_full weight) }
{
    format!(in alloc; "C01100 database-full {weight}")
}

pub fn history_full(alloc: Global, weight: u64) -> Result<String, Memory>
    ensures { IfOk result (λ text. string_bytes text ≡ history_full weight) }
{
    format!(in alloc; "C01100 history-full {weight}")
}

/// A gate of the journal is open, and no whole head or no whole body of an entry stands behind it: the place, in a body
/// of the former journal or in the file.
pub fn bad_journal(alloc: Global, at: u64) -> Result<String, Memory>
    ensures { IfOk result (λ text. string_bytes text ≡ bad_journal at) }
{
    format!(in alloc; "C03100 bad-journal {at}")
}

/// The journal has a version that isn't known.
pub fn unknown_journal(alloc: Global, version: u8) -> Result<String, Memory>
    ensures { IfOk result (λ text. string_bytes text ≡ unknown_journal version) }
{
    format!(in alloc; "C03100 journal-version {version}")
}
