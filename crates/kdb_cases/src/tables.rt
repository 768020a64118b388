//! Mount tables of sets of keys, and their changes.

use crate::notation::two_of;
use crate::sets::name_of;
use kdb_outside::Kind;
use key_meta::Memory;
use key_set::KeySet;
use mount_table::{MountTable, TableFault, add, remove};
use std::alloc::{AllocError, Global};

/// The table as its lines, or its fault.
pub fn table_of(alloc: Global, keys: &KeySet) -> Result<String, Memory> {
    match MountTable::read_table(alloc, keys) {
        Ok(table) => lines(alloc, &table.copy()?),
        Err(fault) => told(alloc, fault),
    }
}

/// Adds the mount of a file at a name, in this order, and tells a fault.
pub fn added(alloc: Global, keys: &mut KeySet, rest: &str) -> Result<String, Memory> {
    let Some((file, at)) = two_of(alloc, rest)? else {
        return String::from_str(alloc, "  no words\n");
    };
    match name_of(alloc, &at)? {
        Some(at) => changed(alloc, add(alloc, keys, &at, &file, Kind::Dump, false)),
        None => String::from_str(alloc, "  no name\n"),
    }
}

/// Removes the mount at a name, and tells a fault.
pub fn removed(alloc: Global, keys: &mut KeySet, rest: &str) -> Result<String, Memory> {
    match name_of(alloc, rest)? {
        Some(at) => changed(alloc, remove(alloc, keys, &at)),
        None => String::from_str(alloc, "  no name\n"),
    }
}

fn changed(alloc: Global, change: Result<(), TableFault>) -> Result<String, Memory> {
    match change {
        Ok(()) => Ok(String::new(alloc)),
        Err(fault) => told(alloc, fault),
    }
}

fn lines(alloc: Global, table: &MountTable) -> Result<String, Memory> {
    let mut all = format!(in alloc; "  {} mounts\n", table.points().len())?;
    for i in 0..table.len() {
        if let Some(mount) = table.mount(i) {
            let at = mount.at.text()?;
            let (file, word) = (mount.file.text(), mount.kind.word());
            let counting = if mount.by_key { " keys" } else { "" };
            all.push_str(&format!(in alloc; "  {at} {file} {word}{counting}\n")?)?;
        }
    }
    Ok(all)
}

fn told(alloc: Global, fault: TableFault) -> Result<String, Memory> {
    let (word, entry) = match fault {
        TableFault::BadMountpoint { entry } => ("bad mountpoint", entry),
        TableFault::NoPath { entry } => ("no path", entry),
        TableFault::BadPath { entry } => ("bad path", entry),
        TableFault::UnknownPlugin { entry } => ("unknown plugin", entry),
        TableFault::FileTwice { entry } => ("file twice", entry),
        TableFault::BadConflicts { entry } => ("bad conflicts", entry),
        TableFault::AlreadyMounted { entry } => ("already mounted", entry),
        TableFault::NotMounted { entry } => ("not mounted", entry),
        TableFault::TooMany { count } => return format!(in alloc; "  too many {count}\n"),
        TableFault::Memory => return Err(AllocError),
    };
    format!(in alloc; "  {word} {}\n", entry.as_str())
}
