//! What a disk begins with.

use disk_memory::MemDisk;
use kdb_outside::FileName;
use key_meta::Memory;
use std::alloc::Global;
use std::mem;

/// Two files at most, the calls that fail, and how many go through.
#[derive(Drop)]
pub struct Start {
    alloc: Global,
    first: Option<(FileName, Vec<u8>)>,
    second: Option<(FileName, Vec<u8>)>,
    failing: Vec<u64>,
    stop_after: Option<u64>,
}

impl Start {
    pub fn new(alloc: Global) -> Start {
        Start {
            alloc,
            first: None,
            second: None,
            failing: Vec::new(alloc),
            stop_after: None,
        }
    }

    /// Adds a file, as the first or the second.
    pub fn add(&mut self, name: FileName, bytes: Vec<u8>) {
        if self.first.is_none() {
            self.first = Some((name, bytes));
        } else {
            self.second = Some((name, bytes));
        }
    }

    pub fn fail(&mut self, calls: Vec<u64>) {
        self.failing = calls;
    }

    pub fn stop(&mut self, last: Option<u64>) {
        self.stop_after = last;
    }

    /// A disk that begins so and is stopped behind so many calls, or whose call of a number fails, if at all. All is
    /// kept here.
    pub fn copy_disk(&self, stop: Option<u64>, failing: Option<u64>) -> Result<MemDisk, Memory> {
        let mut again = Start::new(self.alloc);
        again.stop_after = stop;
        if let Some(call) = failing {
            again.failing.push(call)?;
        }
        if let Some((name, bytes)) = &self.first {
            again.add(name.copy()?, bytes.clone()?);
        }
        if let Some((name, bytes)) = &self.second {
            again.add(name.copy()?, bytes.clone()?);
        }
        again.disk()
    }

    /// The bytes that a disk has of the files, but for those of a journal, with their lengths before them.
    pub fn bytes_of(&self, disk: &MemDisk) -> Result<Vec<u8>, Memory> {
        let mut bytes = Vec::new(self.alloc);
        if let Some((name, _)) = &self.first {
            push_file(self.alloc, &mut bytes, name, disk)?;
        }
        if let Some((name, _)) = &self.second {
            push_file(self.alloc, &mut bytes, name, disk)?;
        }
        Ok(bytes)
    }

    /// The disk, of which nothing is kept here. Of two files of one name it has the first.
    pub fn disk(&mut self) -> Result<MemDisk, Memory> {
        let failing = mem::replace(&mut self.failing, Vec::new(self.alloc));
        let stop = self.stop_after.take();
        let alloc = self.alloc;
        match (self.first.take(), self.second.take()) {
            (None, _) => MemDisk::new(alloc, Vec::new(alloc), failing, stop),
            (Some(one), None) => MemDisk::new(alloc, vec![in alloc; one]?, failing, stop),
            (Some(one), Some(two)) => disk_of_two(alloc, one, two, failing, stop),
        }
    }
}

fn disk_of_two(
    alloc: Global,
    one: (FileName, Vec<u8>),
    two: (FileName, Vec<u8>),
    failing: Vec<u64>,
    stop: Option<u64>,
) -> Result<MemDisk, Memory> {
    if one.0 == two.0 {
        return MemDisk::new(alloc, vec![in alloc; one]?, failing, stop);
    }
    MemDisk::new(alloc, vec![in alloc; one, two]?, failing, stop)
}

fn push_file(
    alloc: Global,
    all: &mut Vec<u8>,
    name: &FileName,
    disk: &MemDisk,
) -> Result<(), Memory> {
    if name.text().starts_with("journal") {
        return Ok(());
    }
    let bytes = disk.bytes(name);
    let length = format!(in alloc; "{} ", bytes.len())?;
    all.extend_from_slice(length.as_bytes())?;
    all.extend_from_slice(bytes)
}
