//! The lines of mount tables that are none.
ghost use Rattle.std.specs.Prelude.{◌≡◌, ◌≢◌, IfOk, OnOk, string_bytes};
ghost use Rattle.store_lines.specs.Lines.{bad_entry, bad_table};
ghost use Rattle.mount_table.specs.declared.faults.TableFault.TheVariants.{Memory as OutOfMemory};

use kdb_text::quoted;
use key_meta::Memory;
use mount_table::TableFault;
use std::alloc::{AllocError, Global};

/// What is wrong with a mount table. Want of memory has no such line.
pub fn bad_table(alloc: Global, fault: &TableFault) -> Result<String, Memory>
    ensures text { IfOk result (λ text. string_bytes text ≡ bad_table fault.now) }
    ensures memory { OnOk result (fault.now ≢ OutOfMemory) }
{
    match fault {
        TableFault::BadMountpoint { entry } => bad_entry(alloc, "bad-mountpoint", entry.as_str()),
        TableFault::NoPath { entry } => bad_entry(alloc, "no-path", entry.as_str()),
        TableFault::BadPath { entry } => bad_entry(alloc, "bad-path", entry.as_str()),
        TableFault::UnknownPlugin { entry } => bad_entry(alloc, "unknown-plugin", entry.as_str()),
        TableFault::FileTwice { entry } => bad_entry(alloc, "file-twice", entry.as_str()),
        TableFault::BadConflicts { entry } => bad_entry(alloc, "bad-conflicts", entry.as_str()),
        TableFault::TooMany { count } => format!(in alloc; "C03200 bad-table too-many {count}"),
        TableFault::AlreadyMounted { entry } => bad_entry(alloc, "already-mounted", entry.as_str()),
        TableFault::NotMounted { entry } => bad_entry(alloc, "not-mounted", entry.as_str()),
        TableFault::Memory => Err(AllocError),
    }
}

/// What is wrong with an entry of a mount table.
fn bad_entry(alloc: Global, cause: &str, entry: &str) -> Result<String, Memory>
    ensures { IfOk result (λ text. string_bytes text ≡ bad_entry cause.now entry.now) }
{
    let entry = quoted(alloc, entry)?;
    format!(in alloc; "C03200 bad-table {cause} {entry}")
}
