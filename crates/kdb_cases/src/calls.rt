//! Calls of a disk.
ghost use Rattle.std.specs.Prelude.{◌≡◌, ◌≤◌, length, true};

use crate::notation::{bytes_of, shown};
use backend_files::{FileFault, FileRead, read_file};
use disk_memory::MemDisk;
use disk_real::RealDisk;
use kdb_outside::{Disk, Failed, FileName};
use key_meta::Memory;
use std::alloc::{AllocError, Global};

/// Whether a word is that of a call.
pub fn is_call(word: &str) -> bool {
    matches!(word, "write" | "cut" | "sync" | "length" | "read" | "whole")
}

/// What a call on a file in memory gives. A change begins within the file.
pub fn answer_to(
    alloc: Global,
    disk: &mut MemDisk,
    word: &str,
    rest: &str,
) -> Result<String, Memory> {
    let (name, at, text) = words_of(rest);
    let Some(file) = FileName::new(alloc, name)? else {
        return no_name(alloc);
    };
    if at <= disk.bytes(&file).len() as u64 {
        return called(alloc, disk, &file, word, at, text);
    }
    match word {
        "read" => read_at(alloc, disk, &file, at, text),
        _ => String::from_str(alloc, "  beyond the file\n"),
    }
}

/// What a call on a real file gives.
pub fn real_answer_to(
    alloc: Global,
    disk: &mut RealDisk,
    word: &str,
    rest: &str,
) -> Result<String, Memory> {
    let (name, at, text) = words_of(rest);
    match FileName::new(alloc, name)? {
        Some(file) => called(alloc, disk, &file, word, at, text),
        None => no_name(alloc),
    }
}

/// The words behind that of a call: a file's name, a place, and bytes or how many of them.
fn words_of(rest: &str) -> (&str, u64, &str) {
    let (name, rest) = rest.split_once(' ').unwrap_or((rest, ""));
    let (at, text) = rest.split_once(' ').unwrap_or((rest, ""));
    (name, at.parse().unwrap_or(0), text)
}

fn no_name(alloc: Global) -> Result<String, Memory> {
    String::from_str(alloc, "  no name of a file\n")
}

fn failed(alloc: Global) -> Result<String, Memory> {
    String::from_str(alloc, "  failed\n")
}

fn called<D: Disk>(
    alloc: Global,
    disk: &mut D,
    file: &FileName,
    word: &str,
    at: u64,
    text: &str,
) -> Result<String, Memory>
    requires { D.tells disk.old ≡ true → at ≤ length (D.seen disk.old file.now) }
{
    match word {
        "length" => length_of(alloc, disk, file),
        "read" => read_at(alloc, disk, file, at, text),
        "whole" => whole(alloc, disk, file),
        _ => {
            let bytes = bytes_of(alloc, text)?;
            changed(alloc, disk, file, word, at, &bytes)
        }
    }
}

fn length_of<D: Disk>(alloc: Global, disk: &mut D, file: &FileName) -> Result<String, Memory> {
    match disk.length(file) {
        Ok(length) => format!(in alloc; "  {length}\n"),
        Err(Failed) => failed(alloc),
    }
}

fn changed<D: Disk>(
    alloc: Global,
    disk: &mut D,
    file: &FileName,
    word: &str,
    at: u64,
    bytes: &[u8],
) -> Result<String, Memory>
    requires { D.tells disk.old ≡ true → at ≤ length (D.seen disk.old file.now) }
{
    let outcome = match word {
        "write" => disk.write_at(file, at, bytes),
        "cut" => disk.cut(file, at),
        _ => disk.sync(file),
    };
    match outcome {
        Ok(()) => Ok(String::new(alloc)),
        Err(Failed) => failed(alloc),
    }
}

/// How many bytes are read into a buffer of points, and the buffer then.
fn read_at<D: Disk>(
    alloc: Global,
    disk: &mut D,
    file: &FileName,
    at: u64,
    count: &str,
) -> Result<String, Memory> {
    let count: u8 = count.parse().unwrap_or(0);
    let mut buf = vec![in alloc; b'.'; count as usize]?;
    match disk.read_at(file, at, &mut buf) {
        Ok(count) => {
            let bytes = shown(alloc, &buf)?;
            format!(in alloc; "  {count} {bytes}\n")
        }
        Err(Failed) => failed(alloc),
    }
}

/// The bytes of a file, or why it is not read.
fn whole<D: Disk>(alloc: Global, disk: &mut D, file: &FileName) -> Result<String, Memory> {
    match read_file(alloc, disk, file) {
        Ok(FileRead::Bytes(bytes)) => {
            let bytes = shown(alloc, bytes.as_slice())?;
            format!(in alloc; "  {bytes}\n")
        }
        Ok(FileRead::TooLong { bytes }) => format!(in alloc; "  too long {bytes}\n"),
        Err(FileFault::DiskFault) => String::from_str(alloc, "  disk fault\n"),
        Err(_) => Err(AllocError),
    }
}
