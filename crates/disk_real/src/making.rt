//! What a disk makes: the folder and the files in it, for those who may write there.
use crate::opening::{found_at, is_denied, is_same, metadata_of, standing_at};
use std::fs::{File, Metadata, OpenOptions, Permissions};
use std::io::ErrorKind;
use std::os::unix::fs::{MetadataExt, PermissionsExt, fchown};
use std::path::Path;
use std::{fs, io};

/// The rights to read and to write, of the owner, the group and all others; and those of the owner alone.
const READ_AND_WRITE: u32 = 0o666;

const OF_OWNER: u32 = 0o600;

/// The right of a group to write, and that of all others.
const GROUP_WRITES: u32 = 0o020;

const OTHERS_WRITE: u32 = 0o002;

/// In such a folder nobody may rename or remove what is another's.
const STICKY: u32 = 0o1000;

/// The folder that another one stands in.
pub(crate) fn folder_above(folder: &str) -> &str {
    match Path::new(folder).parent() {
        Some(above) if !above.as_str().is_empty() => above.as_str(),
        _ => ".",
    }
}

/// All rights for the classes of users that may write a folder. In a sticky one that is its group at most.
fn of_writers(folder: &Metadata) -> u32 {
    let mode = folder.mode();
    let group = if mode & GROUP_WRITES == 0 { 0 } else { 0o070 };
    let others = if mode & OTHERS_WRITE == 0 || mode & STICKY != 0 {
        0
    } else {
        0o007
    };
    group | others
}

/// Gives what was made the owner and the group of the folder that it stands in, as far as the running user may, and
/// these rights.
pub(crate) fn give(file: &File, folder: &Metadata, mode: u32) -> io::Result<()> {
    let made = metadata_of(file)?;
    if made.gid() != folder.gid() {
        own(file, None, Some(folder.gid()))?;
    }
    if made.uid() != folder.uid() {
        own(file, Some(folder.uid()), None)?;
    }
    if made.mode() & 0o777 != mode {
        set_rights(file, mode)?;
    }
    Ok(())
}

/// Changes the owner or the group, where the running user may. A call that a signal interrupts is made again.
fn own(file: &File, user: Option<u32>, group: Option<u32>) -> io::Result<()> {
    for _ in 0..u64::MAX {
        match fchown(file, user, group) {
            Err(error) if error.kind() == ErrorKind::Interrupted => {}
            Err(error) if is_denied(&error) => return Ok(()),
            answer => return answer,
        }
    }
    Err(io::Error::from(ErrorKind::Interrupted))
}

/// Changes the rights, where the running user may. A call that a signal interrupts is made again.
fn set_rights(file: &File, mode: u32) -> io::Result<()> {
    for _ in 0..u64::MAX {
        match file.set_permissions(Permissions::from_mode(mode)) {
            Err(error) if error.kind() == ErrorKind::Interrupted => {}
            Err(error) if is_denied(&error) => return Ok(()),
            answer => return answer,
        }
    }
    Err(io::Error::from(ErrorKind::Interrupted))
}

/// A folder that has to be there.
pub(crate) fn folder_at(rt: HostRuntime, path: &str) -> io::Result<Metadata> {
    match found_at(rt, path)? {
        Some(found) => Ok(found),
        None => Err(io::Error::from(ErrorKind::NotFound)),
    }
}

/// Makes a folder, unless something has its name. Who may write the folder that it stands in may write it too. A call
/// that a signal interrupts is made again.
pub(crate) fn make_folder(rt: HostRuntime, path: &str) -> io::Result<()> {
    for _ in 0..u64::MAX {
        match fs::create_dir(&rt, path) {
            Ok(()) => return give_folder(rt, path),
            Err(error) if error.kind() == ErrorKind::AlreadyExists => return Ok(()),
            Err(error) if error.kind() == ErrorKind::Interrupted => {}
            Err(error) => return Err(error),
        }
    }
    Err(io::Error::from(ErrorKind::Interrupted))
}

/// Gives a folder that was just made to those who may write the one that it stands in. What is opened has to be what
/// stands at the path.
fn give_folder(rt: HostRuntime, path: &str) -> io::Result<()> {
    let above = folder_at(rt, folder_above(path))?;
    let made = File::open(&rt, path)?;
    let found = metadata_of(&made)?;
    if !is_same(&standing_at(rt, path)?, &found) {
        return Err(io::Error::from(ErrorKind::InvalidInput));
    }
    give(&made, &above, found.mode() & 0o777 | of_writers(&above))
}

/// Makes a file that isn't there. Who may write the folder may write it, and nobody may read it who may not read the
/// folder. A link that leads nowhere is no place for one.
pub(crate) fn make_file(rt: HostRuntime, folder: &str, path: &str) -> io::Result<File> {
    let mut how = OpenOptions::new();
    how.read(true).write(true).create_new(true);
    let file = how.open(&rt, path)?;
    let around = folder_at(rt, folder)?;
    let rights = metadata_of(&file)?.mode() | of_writers(&around);
    give(
        &file,
        &around,
        rights & (around.mode() | OF_OWNER) & READ_AND_WRITE,
    )?;
    Ok(file)
}
