//! Files in memory by their names.
ghost use Rattle.std.specs.Prelude.{◌≡◌, ◌≤◌, map, length, take, bytes_eq, position, IfOk, OnOk, OnErr};
ghost use Rattle.kdb_outside.specs.Files.{written, ChangesTo};
ghost use Rattle.disk_memory.specs.declared.changes.Step.TheVariants.{Wrote};
ghost use Rattle.disk_memory.specs.Steps.{after};
ghost use Rattle.disk_memory.specs.DiskState.{file_of, bytes_of};

use crate::changes::{Change, Step};
use crate::places;
use kdb_outside::{FileName, Memory};
use std::alloc::Global;
use std::marker::Model;

/// A file, seen as its name and its bytes.
#[derive(Drop)]
pub(crate) struct MemFile {
    name: FileName,
    bytes: Vec<u8>,
}

impl Model for MemFile {
    ghost use Rattle.disk_memory.specs.DiskState.{File};

    ghost Value = { File };

    ghost view = { λ f. record { name = f.name; bytes = f.bytes.items } };
}

impl MemFile {
    fn new(name: FileName, bytes: Vec<u8>) -> MemFile
        ensures { result ≡ record { name = name; bytes = bytes.items } }
    {
        MemFile { name, bytes }
    }

    fn is_named(&self, name: &FileName) -> bool
        ensures { result ≡ bytes_eq self.now.name name.now }
    {
        self.name == *name
    }

    fn bytes(&self) -> &[u8]
        ensures { result.now ≡ self.now.bytes }
    {
        &self.bytes
    }

    fn copy(&self, alloc: Global) -> Result<MemFile, Memory>
        ensures { IfOk result (λ file. file ≡ self.now) }
    {
        Ok(MemFile::new(self.name.copy()?, Vec::from_slice(alloc, &self.bytes)?))
    }

    fn put(&mut self, bytes: Vec<u8>)
        ensures { self.new ≡ record self.old { bytes = bytes.items } }
    {
        self.bytes = bytes;
    }

    fn write(&mut self, at: usize, piece: &[u8]) -> Result<(), Memory>
        requires { at ≤ length self.old.bytes }
        ensures ok { OnOk result (self.new ≡ record self.old { bytes = written self.old.bytes at piece.now }) }
        ensures err { OnErr result (self.new ≡ self.old) }
    {
        places::write(&mut self.bytes, at, piece)
    }

    fn cut(&mut self, to: usize)
        ensures { self.new ≡ record self.old { bytes = take to self.old.bytes } }
    {
        self.bytes.truncate(to);
    }
}

pub(crate) fn stored(alloc: Global, files: Vec<(FileName, Vec<u8>)>) -> Result<Vec<MemFile>, Memory>
    ensures { IfOk result (λ all. all.items ≡ map file_of files.items) }
{
    files
        .into_iter()
        .map(|(name, bytes)| MemFile::new(name, bytes))
        .collect(alloc)
}

/// The same files once more.
pub(crate) fn copies(alloc: Global, files: &[MemFile]) -> Result<Vec<MemFile>, Memory>
    ensures { IfOk result (λ all. all.items ≡ files.now) }
{
    let mut all = Vec::new(alloc);
    for file in files {
        all.push(file.copy(alloc)?)?;
    }
    Ok(all)
}

fn place_of(files: &[MemFile], name: &FileName) -> Option<usize>
    ensures { result ≡ position (λ f. bytes_eq f.name name.now) files.now }
{
    files.iter().position(|file| file.is_named(name))
}

/// The bytes of a file, and none of one that is missing.
pub(crate) fn bytes_in<'a>(files: &'a [MemFile], name: &FileName) -> &'a [u8]
    ensures { result.now ≡ bytes_of files.now name.now }
{
    match place_of(files, name) {
        Some(place) => files[place].bytes(),
        None => &[],
    }
}

/// Writes a piece into a file, which is made if it is missing. At an error the files are as they were.
fn write_in(
    alloc: Global,
    files: &mut Vec<MemFile>,
    name: &FileName,
    at: usize,
    piece: &[u8],
) -> Result<(), Memory>
    requires { at ≤ length (bytes_of files.old.items name.now) }
    ensures ok { OnOk result (ChangesTo name.now (written (bytes_of files.old.items name.now) at piece.now)
        (bytes_of files.old.items) (bytes_of files.new.items)) }
    ensures err { OnErr result (files.new.items ≡ files.old.items) }
{
    match place_of(files, name) {
        Some(place) => files[place].write(at, piece),
        None => {
            let file = MemFile::new(name.copy()?, Vec::from_slice(alloc, piece)?);
            files.push(file)?;
            Ok(())
        }
    }
}

/// Writes a piece into a file, unless it would begin past the end. At an error the files are as they were.
fn write_within(
    alloc: Global,
    files: &mut Vec<MemFile>,
    name: &FileName,
    at: usize,
    piece: &[u8],
) -> Result<(), Memory>
    ensures ok { OnOk result (ChangesTo name.now (after (bytes_of files.old.items name.now) (Wrote at piece.now))
        (bytes_of files.old.items) (bytes_of files.new.items)) }
    ensures err { OnErr result (files.new.items ≡ files.old.items) }
{
    if at <= bytes_in(files, name).len() {
        write_in(alloc, files, name, at, piece)
    } else {
        Ok(())
    }
}

/// Cuts a file off.
fn cut_in(files: &mut [MemFile], name: &FileName, to: usize)
    ensures { ChangesTo name.now (take to (bytes_of files.old name.now)) (bytes_of files.old) (bytes_of files.new) }
{
    if let Some(place) = place_of(files, name) {
        files[place].cut(to);
    }
}

/// Gives a file these bytes, and makes it if it is missing.
pub(crate) fn put_in(
    files: &mut Vec<MemFile>,
    name: &FileName,
    bytes: Vec<u8>,
) -> Result<(), Memory>
    ensures { OnOk result (ChangesTo name.now bytes.items (bytes_of files.old.items) (bytes_of files.new.items)) }
{
    match place_of(files, name) {
        Some(place) => files[place].put(bytes),
        None => files.push(MemFile::new(name.copy()?, bytes))?,
    }
    Ok(())
}

/// Makes a change in the files. At an error they are as they were.
pub(crate) fn apply_in(
    alloc: Global,
    files: &mut Vec<MemFile>,
    change: &Change,
) -> Result<(), Memory>
    ensures ok { OnOk result (ChangesTo change.now.file (after (bytes_of files.old.items change.now.file) change.now.step)
        (bytes_of files.old.items) (bytes_of files.new.items)) }
    ensures err { OnErr result (files.new.items ≡ files.old.items) }
{
    match &change.step {
        Step::Wrote { at, bytes } => write_within(
            alloc,
            files,
            &change.file,
            *at as usize,
            bytes.bytes(),
        ),
        Step::Cut { new_length } => {
            cut_in(files, &change.file, *new_length as usize);
            Ok(())
        }
        Step::Synced => Ok(()),
    }
}
