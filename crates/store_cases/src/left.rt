//! What a run leaves behind a crash and an opening.
ghost use Rattle.store_cases.specs.Disks.{IsCalmDisk};

use crate::starts::Start;
use crate::steps::Steps;
use crate::stores::{crashed, first_disk, play};
use disk_memory::MemDisk;
use kdb_outside::FileName;
use key_meta::Memory;
use std::alloc::Global;

/// What `user.ecf` and `system.ecf` hold behind a run, a crash, and an opening.
pub fn files_behind(
    alloc: Global,
    start: &Start,
    steps: Steps<'_>,
    choice: u64,
) -> Result<Vec<u8>, Memory> {
    match first_disk(alloc, start, start.stop_after)? {
        Some(disk) => files_of(
            alloc,
            &behind(alloc, disk, start.refusing.clone()?, steps, choice)?,
        ),
        None => Ok(Vec::new(alloc)),
    }
}

/// The disk behind a run, a crash, and an opening.
fn behind(
    alloc: Global,
    disk: MemDisk,
    refusing: Vec<u64>,
    steps: Steps<'_>,
    choice: u64,
) -> Result<MemDisk, Memory>
    requires { IsCalmDisk disk }
{
    let left = play(alloc, disk, steps, refusing)?.left;
    let disk = crashed(left, choice)?;
    Ok(play(alloc, disk, Steps::none(), Vec::new(alloc))?.left)
}

/// What `user.ecf` and `system.ecf` hold.
fn files_of(alloc: Global, left: &MemDisk) -> Result<Vec<u8>, Memory> {
    let mut bytes = Vec::new(alloc);
    push_file(alloc, &mut bytes, left, "user.ecf")?;
    push_file(alloc, &mut bytes, left, "system.ecf")?;
    Ok(bytes)
}

/// What a file holds, and a zero byte.
fn push_file(alloc: Global, bytes: &mut Vec<u8>, left: &MemDisk, file: &str) -> Result<(), Memory> {
    if let Some(name) = FileName::new(alloc, file)? {
        bytes.extend_from_slice(left.bytes(&name))?;
        bytes.push(0)?;
    }
    Ok(())
}
