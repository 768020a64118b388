//! The lock of a folder: the file that is locked, and the wait for it.
use crate::making::{folder_above, folder_at, give};
use crate::opening::{found_at, is_denied, is_same, metadata_of, open_regular};
use std::fs::{File, OpenOptions, TryLockError};
use std::io::ErrorKind;
use std::time::Duration;
use std::{fs, io, thread};

/// The file that is locked while a disk uses the folder. No file of a store has this name.
const LOCK: &str = ".lock";

/// Who may read the folder may lock it, whoever made the file.
const RIGHTS: u32 = 0o666;

/// How long a try to lock is from the next, in milliseconds.
const PAUSE: u64 = 5;

/// How many tries there are, so that they take ten seconds.
pub(crate) const MOST_TRIES: u64 = 2000;

/// What came of asking for a folder's lock.
#[derive(Drop)]
pub(crate) enum Asked {
    /// It is locked as long as this file is open.
    Locked(File),
    /// The folder isn't there.
    NoFolder,
    /// The folder has no lock, and none may be made in it.
    NoLock,
}

/// Locks a folder. Where its lock is held, it is tried so often, and then the call fails. Each try opens the file that
/// stands there then: a file that was taken away may be locked for good by one who doesn't know.
pub(crate) fn lock(rt: HostRuntime, folder: &str, tries: u64) -> io::Result<Asked> {
    let path = path_of_lock(rt, folder)?;
    for _ in 0..tries {
        let file = match open_or_make(rt, folder, path.as_str())? {
            Asked::Locked(file) => file,
            asked => return Ok(asked),
        };
        match file.try_lock() {
            Ok(()) if is_named(rt, path.as_str(), &file)? => return Ok(Asked::Locked(file)),
            Ok(()) => {}
            Err(TryLockError::WouldBlock) => thread::sleep(&rt, Duration::from_millis(PAUSE)),
            Err(TryLockError::Error(error)) if error.kind() == ErrorKind::Interrupted => {}
            Err(TryLockError::Error(error)) => return Err(error),
        }
    }
    Err(io::Error::from(ErrorKind::WouldBlock))
}

/// Whether an open file is the one that a path leads to.
fn is_named(rt: HostRuntime, path: &str, file: &File) -> io::Result<bool> {
    let opened = metadata_of(file)?;
    Ok(found_at(rt, path)?.is_some_and(|found| is_same(&found, &opened)))
}

/// Whether the file that a folder was locked by still is the one that locks it. It isn't once someone took it away, and
/// then others may have locked the folder too.
pub(crate) fn still_locks(rt: HostRuntime, folder: &str, file: &File) -> io::Result<bool> {
    is_named(rt, path_of_lock(rt, folder)?.as_str(), file)
}

/// Whether a folder has the file that is locked.
pub(crate) fn has_lock(rt: HostRuntime, folder: &str) -> io::Result<bool> {
    let path = path_of_lock(rt, folder)?;
    Ok(found_at(rt, path.as_str())?.is_some())
}

/// Whether a folder holds nothing but the file that is locked. A call that a signal interrupts is made again.
pub(crate) fn is_fresh(rt: HostRuntime, folder: &str) -> io::Result<bool> {
    for _ in 0..u64::MAX {
        match holds_lock_alone(rt, folder) {
            Err(error) if error.kind() == ErrorKind::Interrupted => {}
            answer => return answer,
        }
    }
    Err(io::Error::from(ErrorKind::Interrupted))
}

fn holds_lock_alone(rt: HostRuntime, folder: &str) -> io::Result<bool> {
    for entry in fs::read_dir(&rt, folder)? {
        if entry?.file_name() != LOCK {
            return Ok(false);
        }
    }
    Ok(true)
}

fn path_of_lock(rt: HostRuntime, folder: &str) -> io::Result<String> {
    Ok(format!(in rt.alloc(); "{folder}/{LOCK}")?)
}

/// Opens the file that is locked, and makes it where it isn't there. Where another one makes it at the same time, it is
/// opened the next time.
fn open_or_make(rt: HostRuntime, folder: &str, path: &str) -> io::Result<Asked> {
    for _ in 0..3 {
        if let Some(file) = open_made(rt, path)? {
            return Ok(Asked::Locked(file));
        }
        if found_at(rt, folder)?.is_none() {
            // A store can be made in a folder that is there, and nowhere else.
            folder_at(rt, folder_above(folder))?;
            return Ok(Asked::NoFolder);
        }
        keep_name(rt, folder)?;
        match make(rt, folder, path) {
            Ok(file) => return Ok(Asked::Locked(file)),
            Err(error) if is_denied(&error) => return Ok(Asked::NoLock),
            Err(error) if error.kind() == ErrorKind::AlreadyExists => {}
            Err(error) => return Err(error),
        }
    }
    Err(io::Error::from(ErrorKind::AlreadyExists))
}

/// Opens the file where it is there: also to write, since some systems lock no other, and for reading alone by who may
/// not write it.
fn open_made(rt: HostRuntime, path: &str) -> io::Result<Option<File>> {
    let mut how = OpenOptions::new();
    how.read(true).write(true);
    match open_regular(rt, path, &how) {
        Err(error) if is_denied(&error) => {
            how.write(false);
            open_regular(rt, path, &how)
        }
        opened => opened,
    }
}

/// Makes the file. Its rights go beyond what the process gives to new files, where the system has such rights.
fn make(rt: HostRuntime, folder: &str, path: &str) -> io::Result<File> {
    let mut how = OpenOptions::new();
    how.read(true).write(true).create_new(true);
    let file = how.open(&rt, path)?;
    give(&file, &folder_at(rt, folder)?, RIGHTS)?;
    Ok(file)
}

/// Syncs the folder that a folder stands in, so that its name outlasts a crash. Who may not open that one can't.
fn keep_name(rt: HostRuntime, folder: &str) -> io::Result<()> {
    match File::open(&rt, folder_above(folder)) {
        Ok(opened) => opened.sync_all(),
        Err(error) if is_denied(&error) => Ok(()),
        Err(error) => Err(error),
    }
}
