//! The disk.
ghost use Rattle.std.specs.Prelude.{◌≡◌, ◌≤◌, [], false, length, IfOk, ⊤};
ghost use Rattle.kdb_outside.specs.Faults.{HasCause};
ghost use Rattle.kdb_outside.specs.Edge.{CountsFault};

use crate::files::{fill, write_whole};
use crate::locking::{Asked, MOST_TRIES, has_lock, is_fresh, lock, still_locks};
use crate::making::{make_file, make_folder};
use crate::opening::{found_at, is_denied, may_change, metadata_of, open_regular, standing_at};
use crate::overlay::{
    Overlay, copy_from, cut_to, is_former_journal, is_journal, may_hold, with_piece,
};
use kdb_outside::{Disk, Failed, FileName, Memory};
use std::fs::{File, OpenOptions};
use std::io;
use std::io::ErrorKind;
use std::marker::Model;

/// What the first call found where it took no lock.
#[derive(Clone, Copy)]
enum Unlocked {
    /// There was no such call.
    Nothing,
    /// No folder.
    NoFolder,
    /// A folder that has no lock, and where none may be made.
    NoLock,
}

/// The files of a folder by their names, seen as the folder's path and how often a call has failed. A file that isn't
/// there is an empty one, and what is there has to be a regular file, or a link to one.
///
/// A disk that finds its folder at the first call holds the folder's lock from then on, as long as it lives. While
/// another one holds it, the call waits, for ten seconds at most, and then fails. Who may not make a lock in a folder
/// that has none reads without one, changes nothing, and fails once the folder has a lock. Where there is no folder all
/// files stay empty until the first write, which makes it and takes its lock; it fails where another one has made files
/// in it.
#[derive(Drop)]
pub struct RealDisk {
    rt: HostRuntime,
    folder: String,
    tries: u64,
    lock: Option<File>,
    unlocked: Unlocked,
    found: Found,
    /// The names of all files of the folder outlast a crash: it was synced since this disk last made a file in it.
    names_kept: bool,
    overlay: Option<Overlay>,
    faults: u64,
}

/// What the calls so far have met with in the folder.
#[derive(Clone, Copy, PartialEq, Eq)]
enum Found {
    /// Nothing was changed, and no journal was read that an opening may have to write into.
    Nothing,
    /// A former journal was read, or the header gate of the journal as open, and nothing was changed.
    Journal,
    /// A file was changed.
    Changed,
}

impl Model for RealDisk {
    ghost use Rattle.std.specs.Prelude.{List, ℕ, string_bytes};
    ghost use Rattle.kdb_outside.specs.Edge.{Edge};

    ghost Value = { Edge (List ℕ) };

    ghost view = { λ disk. record { inner = string_bytes disk.folder; faults = disk.faults } };
}

impl RealDisk {
    /// A disk over a folder, which need not be there.
    pub fn new(rt: HostRuntime, folder: &str) -> Result<RealDisk, Memory>
        ensures { IfOk result (λ disk. disk ≡ record { inner = folder.now; faults = 0 }) }
    {
        RealDisk::trying(rt, folder, MOST_TRIES)
    }

    /// A disk over a folder that tries so often to take a lock that is held, a try each 5 milliseconds. `new` tries for
    /// ten seconds.
    pub fn trying(rt: HostRuntime, folder: &str, tries: u64) -> Result<RealDisk, Memory>
        ensures { IfOk result (λ disk. disk ≡ record { inner = folder.now; faults = 0 }) }
    {
        Ok(RealDisk {
            rt,
            folder: String::from_str(rt.alloc(), folder)?,
            tries,
            lock: None,
            unlocked: Unlocked::Nothing,
            found: Found::Nothing,
            names_kept: false,
            overlay: None,
            faults: 0,
        })
    }

    /// The path of a file of the folder.
    fn path_of(&self, name: &str) -> io::Result<String> {
        let folder = self.folder.as_str();
        Ok(format!(in self.rt.alloc(); "{folder}/{name}")?)
    }

    /// Opens a file of the folder. None where it isn't there.
    fn open(&self, name: &str, how: &OpenOptions) -> io::Result<Option<File>> {
        open_regular(self.rt, self.path_of(name)?.as_str(), how)
    }

    /// Takes the folder's lock at the first call, if the folder is there.
    fn take_lock(&mut self) -> io::Result<()>
        ensures { self.new ≡ self.old }
    {
        if self.lock.is_some() {
            return Ok(());
        }
        match self.unlocked {
            Unlocked::NoFolder => return Ok(()),
            Unlocked::NoLock => return self.look_again(),
            Unlocked::Nothing => {}
        }
        match lock(self.rt, self.folder.as_str(), self.tries)? {
            Asked::Locked(file) => self.lock = Some(file),
            Asked::NoFolder => self.unlocked = Unlocked::NoFolder,
            Asked::NoLock => self.unlocked = Unlocked::NoLock,
        }
        Ok(())
    }

    /// Takes the folder's lock, and makes the folder where it isn't there.
    fn take_lock_to_write(&mut self) -> io::Result<()>
        ensures { self.new ≡ self.old }
    {
        if self.lock.is_some() {
            return Ok(());
        }
        make_folder(self.rt, self.folder.as_str())?;
        match lock(self.rt, self.folder.as_str(), self.tries)? {
            Asked::Locked(file) if self.stands_still()? => {
                self.lock = Some(file);
                Ok(())
            }
            _ => Err(io::Error::from(ErrorKind::PermissionDenied)),
        }
    }

    /// Whether what the calls so far found is still so, now that the folder is locked.
    fn stands_still(&self) -> io::Result<bool> {
        match self.unlocked {
            Unlocked::Nothing => Ok(true),
            Unlocked::NoFolder => is_fresh(self.rt, self.folder.as_str()),
            Unlocked::NoLock => Ok(false),
        }
    }

    /// Who reads without a lock has read files at rest as long as the folder has none: whoever changes a file makes it
    /// before.
    fn look_again(&self) -> io::Result<()> {
        match self.unlocked {
            Unlocked::NoLock if has_lock(self.rt, self.folder.as_str())? => {
                Err(io::Error::from(ErrorKind::ResourceBusy))
            }
            _ => Ok(()),
        }
    }

    /// Opens a file that is there, once the folder is locked. None where it isn't, or where the folder wasn't at the
    /// first call.
    fn open_locked(&mut self, file: &FileName, how: &OpenOptions) -> io::Result<Option<File>>
        ensures { self.new ≡ self.old }
    {
        self.take_lock()?;
        match self.unlocked {
            Unlocked::NoFolder if self.lock.is_none() => Ok(None),
            _ => self.open(file.text(), how),
        }
    }

    /// Opens a file to change it, which needs the lock, and a path that leads nowhere else. None where it isn't there.
    fn open_to_change(&mut self, file: &FileName) -> io::Result<Option<File>>
        ensures { self.new ≡ self.old }
    {
        let mut how = OpenOptions::new();
        how.read(true).write(true);
        let Some(opened) = self.open_locked(file, &how)? else {
            return Ok(None);
        };
        if self.lock.is_none() {
            return Err(io::Error::from(ErrorKind::PermissionDenied));
        }
        let path = self.path_of(file.text())?;
        if !may_change(self.rt, path.as_str(), &metadata_of(&opened)?)? {
            return Err(io::Error::from(ErrorKind::InvalidInput));
        }
        self.look_at_folder()?;
        Ok(Some(opened))
    }

    /// A change of a file needs a folder that stands there itself, or one that a link of the running user or of the
    /// folder's owner leads to; and a lock that still is the folder's.
    fn look_at_folder(&self) -> io::Result<()> {
        let folder = self.folder.as_str();
        if standing_at(self.rt, folder)?.is_symlink() {
            match found_at(self.rt, folder)? {
                Some(found) if may_change(self.rt, folder, &found)? => {}
                _ => return Err(io::Error::from(ErrorKind::InvalidInput)),
            }
        }
        match &self.lock {
            Some(lock) if still_locks(self.rt, folder, lock)? => Ok(()),
            _ => Err(io::Error::from(ErrorKind::ResourceBusy)),
        }
    }

    /// The bytes of a file as a read gives them.
    fn bytes_of(&mut self, file: &FileName) -> io::Result<Vec<u8>>
        ensures { self.new ≡ self.old }
    {
        let alloc = self.rt.alloc();
        if let Some(overlay) = &self.overlay {
            if let Some(bytes) = overlay.bytes_of(file) {
                return cut_to(alloc, bytes, u64::MAX);
            }
        }
        let length = self.length_of(file)?;
        let Ok(length) = usize::try_from(length) else {
            return Err(io::Error::from(ErrorKind::InvalidInput));
        };
        let mut bytes = vec![in alloc; 0; length]?;
        let count = self.read(file, 0, &mut bytes)?;
        bytes.truncate(count);
        Ok(bytes)
    }

    /// Has a file hold these bytes for this disk alone.
    fn hold(&mut self, file: &FileName, bytes: Vec<u8>) -> io::Result<()>
        ensures { self.new ≡ self.old }
    {
        let mut overlay = match self.overlay.take() {
            Some(overlay) => overlay,
            None => Overlay::new(self.rt.alloc()),
        };
        let held = overlay.hold(file, bytes);
        self.overlay = Some(overlay);
        Ok(held?)
    }

    /// Whether changes are kept in memory from now on: the first one is denied, and it may be an opening's, which
    /// brings the open entries of a journal in.
    fn holds_from(&self, error: &io::Error) -> bool {
        self.found == Found::Journal && is_denied(error)
    }

    fn length_of(&mut self, file: &FileName) -> io::Result<u64>
        ensures { self.new ≡ self.old }
    {
        if let Some(overlay) = &self.overlay {
            if let Some(bytes) = overlay.bytes_of(file) {
                return Ok(bytes.len() as u64);
            }
        }
        let mut how = OpenOptions::new();
        how.read(true);
        let length = match self.open_locked(file, &how)? {
            Some(opened) => metadata_of(&opened)?.len(),
            None => 0,
        };
        self.look_again()?;
        Ok(length)
    }

    fn read(&mut self, file: &FileName, at: u64, buf: &mut [u8]) -> io::Result<usize>
        ensures same { self.new ≡ self.old }
        ensures within { IfOk result (λ count. count ≤ length buf.old) }
    {
        if let Some(overlay) = &self.overlay {
            if let Some(bytes) = overlay.bytes_of(file) {
                return Ok(copy_from(bytes, at, buf));
            }
        }
        let mut how = OpenOptions::new();
        how.read(true);
        let count = match self.open_locked(file, &how)? {
            Some(opened) => fill(&opened, at, buf)?,
            None => 0,
        };
        self.look_again()?;
        self.note_journal(file, at, &buf[..count]);
        Ok(count)
    }

    /// Keeps in mind that a former journal was read, which an opening retires, or the header gate of the journal as
    /// open.
    fn note_journal(&mut self, file: &FileName, at: u64, bytes: &[u8])
        ensures { self.new ≡ self.old }
    {
        let is_open = bytes.first().is_some_and(|gate| *gate != 0);
        let is_written_to = is_former_journal(file) || is_open && is_journal(file);
        if self.found == Found::Nothing && at == 0 && is_written_to {
            self.found = Found::Journal;
        }
    }

    fn write(&mut self, file: &FileName, at: u64, piece: &[u8]) -> io::Result<()>
        ensures { self.new ≡ self.old }
    {
        if self.overlay.is_none() {
            match self.write_through(file, at, piece) {
                Err(error) if self.holds_from(&error) => {}
                answer => return answer,
            }
        }
        if !may_hold(file, piece) {
            return Err(io::Error::from(ErrorKind::PermissionDenied));
        }
        let bytes = self.bytes_of(file)?;
        let written = with_piece(self.rt.alloc(), &bytes, at, piece)?;
        self.hold(file, written)
    }

    fn write_through(&mut self, file: &FileName, at: u64, piece: &[u8]) -> io::Result<()>
        ensures { self.new ≡ self.old }
    {
        self.take_lock_to_write()?;
        let opened = match self.open_to_change(file)? {
            Some(opened) => opened,
            None => {
                self.names_kept = false;
                self.make(file)?
            }
        };
        self.found = Found::Changed;
        write_whole(&opened, at, piece)
    }

    /// Makes a file that isn't there.
    fn make(&self, file: &FileName) -> io::Result<File> {
        self.look_at_folder()?;
        let path = self.path_of(file.text())?;
        make_file(self.rt, self.folder.as_str(), path.as_str())
    }

    fn shorten(&mut self, file: &FileName, to: u64) -> io::Result<()>
        ensures { self.new ≡ self.old }
    {
        if self.overlay.is_none() {
            match self.shorten_through(file, to) {
                Err(error) if self.holds_from(&error) => {}
                answer => return answer,
            }
        }
        let bytes = self.bytes_of(file)?;
        let kept = cut_to(self.rt.alloc(), &bytes, to)?;
        self.hold(file, kept)
    }

    fn shorten_through(&mut self, file: &FileName, to: u64) -> io::Result<()>
        ensures { self.new ≡ self.old }
    {
        match self.open_to_change(file)? {
            Some(opened) => {
                self.found = Found::Changed;
                opened.set_len(to)
            }
            None if to == 0 => Ok(()),
            None => Err(io::Error::from(ErrorKind::NotFound)),
        }
    }

    /// Syncs a file, and then its name. What is in memory alone has no more to be kept by.
    fn keep(&mut self, file: &FileName) -> io::Result<()>
        ensures { self.new ≡ self.old }
    {
        if self.overlay.is_some() {
            return Ok(());
        }
        let mut how = OpenOptions::new();
        how.read(true);
        if let Some(opened) = self.open_locked(file, &how)? {
            opened.sync_all()?;
            self.keep_names()?;
        }
        Ok(())
    }

    /// Syncs the folder, unless it was synced since a file was made in it: as long as it is locked no other program
    /// makes one.
    fn keep_names(&mut self) -> io::Result<()>
        ensures { self.new ≡ self.old }
    {
        if !self.names_kept {
            File::open(&self.rt, self.folder.as_str())?.sync_all()?;
            self.names_kept = self.lock.is_some();
        }
        Ok(())
    }

    /// Counts an error as a fault.
    fn counted<T>(&mut self, outcome: io::Result<T>) -> Result<T, Failed>
        ensures ok { IfOk result (λ value. outcome ≡ Ok value) }
        ensures folder { self.new.inner ≡ self.old.inner }
        ensures counted { CountsFault self.old.faults self.new.faults result }
        ensures cause { HasCause self.old.faults self.new.faults result }
        ensures later { self.old.faults ≤ self.new.faults }
    {
        match outcome {
            Ok(value) => Ok(value),
            Err(_) => {
                self.faults = self.faults.saturating_add(1);
                Err(Failed)
            }
        }
    }
}

impl Disk for RealDisk {
    ghost tells = { λ _. false };

    ghost seen = { λ _ _. [] };

    ghost may_leave = { λ _ _ _. ⊤ };

    ghost moment = { λ _. 0 };

    ghost left_since = { λ _ _ _. ⊤ };

    ghost faults = { λ disk. disk.faults };

    ghost gives = { λ _ _ _ _. ⊤ };

    ghost read_is_image = { λ _ _ _. tt };

    ghost counts_now = { λ _ _ _ _ _ _. tt };

    ghost only_now = { λ _ _ _ _ _. tt };

    fn length(&mut self, file: &FileName) -> Result<u64, Failed>
        ensures folder { self.new.inner ≡ self.old.inner }
        ensures counted { CountsFault self.old.faults self.new.faults result }
        ensures cause { HasCause self.old.faults self.new.faults result }
        ensures later { self.old.faults ≤ self.new.faults }
    {
        let outcome = self.length_of(file);
        self.counted(outcome)
    }

    fn read_at(&mut self, file: &FileName, at: u64, buf: &mut [u8]) -> Result<usize, Failed>
        ensures folder { self.new.inner ≡ self.old.inner }
        ensures counted { CountsFault self.old.faults self.new.faults result }
        ensures within { IfOk result (λ n. n ≤ length buf.old) }
        ensures cause { HasCause self.old.faults self.new.faults result }
        ensures later { self.old.faults ≤ self.new.faults }
    {
        let outcome = self.read(file, at, buf);
        self.counted(outcome)
    }

    fn write_at(&mut self, file: &FileName, at: u64, bytes: &[u8]) -> Result<(), Failed>
        ensures folder { self.new.inner ≡ self.old.inner }
        ensures counted { CountsFault self.old.faults self.new.faults result }
        ensures cause { HasCause self.old.faults self.new.faults result }
        ensures later { self.old.faults ≤ self.new.faults }
    {
        let outcome = self.write(file, at, bytes);
        self.counted(outcome)
    }

    fn cut(&mut self, file: &FileName, new_length: u64) -> Result<(), Failed>
        ensures folder { self.new.inner ≡ self.old.inner }
        ensures counted { CountsFault self.old.faults self.new.faults result }
        ensures cause { HasCause self.old.faults self.new.faults result }
        ensures later { self.old.faults ≤ self.new.faults }
    {
        let outcome = self.shorten(file, new_length);
        self.counted(outcome)
    }

    fn sync(&mut self, file: &FileName) -> Result<(), Failed>
        ensures folder { self.new.inner ≡ self.old.inner }
        ensures counted { CountsFault self.old.faults self.new.faults result }
        ensures cause { HasCause self.old.faults self.new.faults result }
        ensures later { self.old.faults ≤ self.new.faults }
    {
        let outcome = self.keep(file);
        self.counted(outcome)
    }

    /// The lock goes with its file, and what was found without one is found anew.
    fn release(&mut self)
        ensures { self.new ≡ self.old }
    {
        self.lock = None;
        self.unlocked = Unlocked::Nothing;
        self.found = Found::Nothing;
        self.names_kept = false;
        self.overlay = None;
    }
}
