//! What a crash leaves of a disk in memory, by examples.

use crate::file_names::name;
use disk_memory::MemDisk;
use kdb_outside::{Disk, Failed, FileName};
use std::alloc::Global;
use std::test::Fail;

/// Writes at a place that isn't behind the file's end.
fn write(disk: &mut MemDisk, file: &FileName, at: u64, bytes: &[u8]) -> Result<(), Failed> {
    let length = disk.bytes(file).len() as u64;
    if at <= length {
        return disk.write_at(file, at, bytes);
    }
    Err(Failed)
}

/// Cuts a file that isn't shorter than that.
fn cut(disk: &mut MemDisk, file: &FileName, to: u64) -> Result<(), Failed> {
    let length = disk.bytes(file).len() as u64;
    if to <= length {
        return disk.cut(file, to);
    }
    Err(Failed)
}

/// Four calls, up to the first that doesn't go through.
fn change(disk: &mut MemDisk, file: &FileName) -> Result<(), Failed> {
    write(disk, file, 1, b"12")?;
    write(disk, file, 2, b"2YZ")?;
    cut(disk, file, 2)?;
    disk.sync(file)
}

/// A disk with a file of `abcd` that stops after so many calls.
fn disk_of(alloc: Global, user: &FileName, stop_after: u64) -> Result<MemDisk, Fail> {
    let files = vec![in alloc; (user.copy()?, b"abcd".to_vec(alloc)?)]?;
    Ok(MemDisk::new(alloc, files, Vec::new(alloc), Some(stop_after))?)
}

/// The disk that a crash with this choice leaves of it once it was changed.
fn crashed(alloc: Global, user: &FileName, stop_after: u64, choice: u64) -> Result<MemDisk, Fail> {
    let mut disk = disk_of(alloc, user, stop_after)?;
    let _ = change(&mut disk, user);
    Ok(disk.crash(choice)?)
}

/// After how many calls a disk stops, the choice of its crash, and the bytes that this leaves.
type Row = (u64, u64, &'static [u8]);

/// Whether a crash leaves these bytes, on a disk that counts its calls anew and on which they go through.
fn leaves(alloc: Global, user: &FileName, row: &Row) -> Result<bool, Fail> {
    let (stop_after, choice, bytes) = row;
    let mut disk = crashed(alloc, user, *stop_after, *choice)?;
    let goes = disk.length(user).is_ok() && disk.calls() == 1;
    Ok(goes && disk.bytes(user) == *bytes)
}

/// The place of the first row whose crash leaves something else.
fn first_other(alloc: Global, user: &FileName, rows: &[Row]) -> Result<Option<usize>, Fail> {
    for (place, row) in rows.iter().enumerate() {
        if !leaves(alloc, user, row)? {
            return Ok(Some(place));
        }
    }
    Ok(None)
}

/// The first choice leaves what was synced, the second all, and any other something between: bytes, lengths and cuts
/// that are torn each in its own way.
const ROWS: [Row; 21] = [
    (0, 0, b"abcd"),
    (0, 1, b"abcd"),
    (1, 0, b"abcd"),
    (1, 1, b"a12d"),
    (2, 0, b"abcd"),
    (2, 1, b"a12YZ"),
    (2, 2, b"a\xe02YZ"),
    (2, 3, b"ab2YZ"),
    (2, 4, b"ab2YZ"),
    (2, 5, b"a12YZ"),
    (2, 6, b"ab2\xfe"),
    (2, 7, b"a12d"),
    (2, 8, b"a\x8f4d\x00"),
    (2, 9, b"a12d"),
    (3, 0, b"abcd"),
    (3, 1, b"a1"),
    (3, 3, b"ab"),
    (3, 4, b"abl\x00"),
    (3, 6, b"ab\xaa\x1c"),
    (4, 0, b"a1"),
    (4, 1, b"a1"),
];

#[test]
fn a_crash_leaves_what_its_number_chooses(rt: HostRuntime) -> Result<(), Fail> {
    let user = name(rt.alloc(), "user.ecf")?;
    assert_eq!(rt; first_other(rt.alloc(), &user, &ROWS)?, None);
    Ok(())
}
