//! Disks in memory, and the keys of all their files.
use all_formats::AllFormats;
use disk_memory::MemDisk;
use kdb_outside::FileName;
use key_set::KeySet;
use mounted_files::{FileState, MountedFile};
use regex_check::RegexPatterns;
use std::alloc::Global;
use std::test::*;
use store_core::open_store;

/// A table with a mount at `user:/m` that counts conflicts by key.
const BY_KEY: &str =
    "kdbOpen 2\n$key string 30 4\nmountpoints/user:\\/m/conflicts\nkeys\n$key string 25 5\nmountpoints/user:\\/m/path\nm.ecf\n$end\n";

/// A table with a mount at `user:/m` that counts conflicts by its backend.
const BY_BACKEND: &str = "kdbOpen 2\n$key string 25 5\nmountpoints/user:\\/m/path\nm.ecf\n$end\n";

/// A disk with such a table.
pub fn disk_with_a_mount(alloc: Global, by_key: bool) -> Result<MemDisk, Fail> {
    let file = FileName::new(alloc, "elektra.ecf")?.ok_or("it is a file's name")?;
    let table = if by_key { BY_KEY } else { BY_BACKEND };
    let mut bytes = Vec::new(alloc);
    bytes.extend_from_slice(table.as_bytes())?;
    Ok(MemDisk::new(alloc, vec![in alloc; (file, bytes)]?, Vec::new(alloc), None)?)
}

/// A disk without files.
pub fn empty_disk(alloc: Global) -> Result<MemDisk, Fail> {
    Ok(MemDisk::new(alloc, Vec::new(alloc), Vec::new(alloc), None)?)
}

/// The keys of a file join others, unless the file is bad.
fn add_shown(keys: &mut KeySet, state: &FileState) -> Result<(), Fail> {
    match state {
        FileState::Good { visible, .. } => {
            keys.append_all(visible.copy()?)?;
            Ok(())
        }
        FileState::Bad { .. } => Err(Fail::from("no file is bad")),
    }
}

/// The keys of all files.
fn all_shown(alloc: Global, files: &[MountedFile]) -> Result<KeySet, Fail> {
    let mut keys = KeySet::new(alloc);
    for file in files {
        add_shown(&mut keys, &file.state)?;
    }
    Ok(keys)
}

/// The keys of all files of a disk.
pub fn keys_of(alloc: Global, disk: MemDisk) -> Result<KeySet, Fail> {
    match open_store(alloc, disk, AllFormats, RegexPatterns::new()) {
        Ok(opened) => all_shown(alloc, opened.plan.mounted().files()),
        Err(_) => Err(Fail::from("it is opened")),
    }
}
