//! Opening the files of a folder: regular files alone, and what is told of them.
use std::fs::{File, Metadata, OpenOptions};
use std::io::ErrorKind;
use std::os::unix::fs::MetadataExt;
use std::{fs, io};

/// Whether an error says that nothing is at a path.
pub(crate) fn is_missing(error: &io::Error) -> bool {
    error.kind() == ErrorKind::NotFound
}

/// Whether an error is a refusal for want of a right.
pub(crate) fn is_denied(error: &io::Error) -> bool {
    matches!(
        error.kind(),
        ErrorKind::PermissionDenied | ErrorKind::ReadOnlyFilesystem
    )
}

/// What is at a path, behind a link too. None where nothing is. A call that a signal interrupts is made again.
pub(crate) fn found_at(rt: HostRuntime, path: &str) -> io::Result<Option<Metadata>> {
    for _ in 0..u64::MAX {
        match fs::metadata(&rt, path) {
            Ok(found) => return Ok(Some(found)),
            Err(error) if is_missing(&error) => return Ok(None),
            Err(error) if error.kind() == ErrorKind::Interrupted => {}
            Err(error) => return Err(error),
        }
    }
    Err(io::Error::from(ErrorKind::Interrupted))
}

/// What is at a path itself: a link where there is one. A call that a signal interrupts is made again.
pub(crate) fn standing_at(rt: HostRuntime, path: &str) -> io::Result<Metadata> {
    for _ in 0..u64::MAX {
        match fs::symlink_metadata(&rt, path) {
            Err(error) if error.kind() == ErrorKind::Interrupted => {}
            answer => return answer,
        }
    }
    Err(io::Error::from(ErrorKind::Interrupted))
}

/// Whether two looks saw one and the same file.
pub(crate) fn is_same(one: &Metadata, other: &Metadata) -> bool {
    one.dev() == other.dev() && one.ino() == other.ino()
}

/// The running process, as the system shows it: it belongs to the user that the process acts for.
const RUNNING: &str = "/proc/self";

/// Whether something belongs to the running user. Where the system shows no processes, it doesn't.
fn is_of_user(rt: HostRuntime, found: &Metadata) -> io::Result<bool> {
    Ok(found_at(rt, RUNNING)?.is_some_and(|running| running.uid() == found.uid()))
}

/// Whether what was opened may be changed by way of a path. It may where it stands there itself, and by a link only
/// where the link is the running user's, or of the owner of what it leads to: else whoever may make links in a folder
/// would have the files of others changed. What was opened is asked for, so that a path which is changed in between
/// gains nothing.
pub(crate) fn may_change(rt: HostRuntime, path: &str, opened: &Metadata) -> io::Result<bool> {
    let standing = standing_at(rt, path)?;
    if standing.is_symlink() {
        return Ok(standing.uid() == opened.uid() || is_of_user(rt, &standing)?);
    }
    Ok(is_same(&standing, opened))
}

/// What an open file is. A call that a signal interrupts is made again.
pub(crate) fn metadata_of(file: &File) -> io::Result<Metadata> {
    for _ in 0..u64::MAX {
        match file.metadata() {
            Err(error) if error.kind() == ErrorKind::Interrupted => {}
            answer => return answer,
        }
    }
    Err(io::Error::from(ErrorKind::Interrupted))
}

/// Opens a regular file. None where nothing is at the path, and nothing is to be made there. Whatever else is there
/// isn't opened: a fifo could keep the caller waiting, and a device could do anything.
pub(crate) fn open_regular(
    rt: HostRuntime,
    path: &str,
    how: &OpenOptions,
) -> io::Result<Option<File>> {
    if found_at(rt, path)?.is_some_and(|found| !found.is_file()) {
        return Err(io::Error::from(ErrorKind::InvalidInput));
    }
    match how.open(&rt, path) {
        Ok(opened) if metadata_of(&opened)?.is_file() => Ok(Some(opened)),
        Ok(_) => Err(io::Error::from(ErrorKind::InvalidInput)),
        Err(error) if is_missing(&error) => Ok(None),
        Err(error) => Err(error),
    }
}
