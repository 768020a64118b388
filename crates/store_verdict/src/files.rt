//! What the files of touched mounts are to hold.
ghost use Rattle.std.specs.Prelude.{◌≡◌, IfOk, map as over};
ghost use Rattle.std.specs.List.{AllByRecursion};
ghost use Rattle.key_set.specs.WithAll.{with_all};
ghost use Rattle.model_store.specs.Store.{shadow_of};
ghost use Rattle.mounted_files.specs.Sound.{AreSound};
ghost use Rattle.mounted_files.specs.Whole.{relative};
ghost use Rattle.set_split.specs.Seen.{numbered};
ghost use Rattle.store_verdict.specs.Filing.{IsSoundFile, file_of};

use key_meta::Memory;
use key_set::KeySet;
use mounted_files::{FileState, MountedFile};
use set_split::Part;
use std::alloc::Global;

/// The keys that the file of a mount is to hold, under relative names.
#[derive(Drop)]
pub struct FileToWrite {
    pub mount: usize,
    pub contents: KeySet,
}

/// What the files of touched mounts are to hold.
pub fn files_of(
    alloc: Global,
    files: &[MountedFile],
    touched: &[Part],
) -> Result<Vec<FileToWrite>, Memory>
    ensures files { IfOk result (λ made. made.items ≡ over (file_of files.now) (numbered touched.now)) }
    ensures sound { IfOk result (λ made. AllByRecursion (IsSoundFile (over (λ file. file.mount) files.now)) made.items) }
{
    let mut made = Vec::with_capacity(alloc, touched.len())?;
    for part in touched {
        made.push(file_of(alloc, files, part)?)?;
    }
    Ok(made)
}

/// What the file of a touched mount is to hold.
fn file_of(alloc: Global, files: &[MountedFile], part: &Part) -> Result<FileToWrite, Memory>
    ensures file { IfOk result (λ made. made ≡ file_of files.now (part.now.mount, part.now.keys)) }
    ensures sound { IfOk result (IsSoundFile (over (λ file. file.mount) files.now)) }
{
    let contents = match files.get(part.mount) {
        Some(file) => contents_of(alloc, file, &part.keys)?,
        None => KeySet::new(alloc),
    };
    Ok(FileToWrite {
        mount: part.mount,
        contents,
    })
}

/// What is wanted for a mount, and the keys that its file keeps for others, under relative names.
fn contents_of(alloc: Global, file: &MountedFile, wanted: &KeySet) -> Result<KeySet, Memory>
    ensures is { IfOk result (λ contents. contents ≡ relative file.now.mount.at (with_all wanted.now (shadow_of file.now.state))) }
    ensures sound { IfOk result (AreSound file.now.mount.at) }
{
    let mut all = shadow_of(alloc, &file.state)?;
    all.append_all(wanted.copy()?)?;
    all.relative_to(alloc, &file.mount.at)
}

/// The keys that a file keeps for other mounts.
fn shadow_of(alloc: Global, state: &FileState) -> Result<KeySet, Memory>
    ensures { IfOk result (λ shadow. shadow ≡ shadow_of state.now) }
{
    match state {
        FileState::Good { shadow, .. } => shadow.copy(),
        FileState::Bad { .. } => Ok(KeySet::new(alloc)),
    }
}
