//! What a disk begins with.
ghost use Rattle.std.specs.Prelude.{IfOk};
ghost use Rattle.store_cases.specs.Disks.{IsAlone};

use disk_memory::MemDisk;
use kdb_outside::FileName;
use key_meta::Memory;
use std::alloc::Global;

/// Two files at most, the calls of the disk that fail, how many go through, and the calls of the matcher that are
/// refused.
#[derive(Drop)]
pub struct Start {
    alloc: Global,
    first: Option<(FileName, Vec<u8>)>,
    second: Option<(FileName, Vec<u8>)>,
    pub failing: Vec<u64>,
    pub stop_after: Option<u64>,
    pub refusing: Vec<u64>,
}

impl Start {
    pub fn new(alloc: Global) -> Start {
        Start {
            alloc,
            first: None,
            second: None,
            failing: Vec::new(alloc),
            stop_after: None,
            refusing: Vec::new(alloc),
        }
    }

    /// Adds a file, as the first or the second.
    pub fn add(&mut self, name: FileName, bytes: Vec<u8>) {
        if self.first.is_none() {
            self.first = Some((name, bytes));
        } else {
            self.second = Some((name, bytes));
        }
    }

    /// A disk that begins so, and of which so many calls go through. Of two files of one name it has the first.
    pub fn disk(&self, stop_after: Option<u64>) -> Result<MemDisk, Memory>
        ensures { IfOk result IsAlone }
    {
        let failing = self.failing.clone()?;
        let alloc = self.alloc;
        match (&self.first, &self.second) {
            (None, _) => MemDisk::new(alloc, Vec::new(alloc), failing, stop_after),
            (Some(one), None) => {
                MemDisk::new(alloc, vec![in alloc; copy_of(one)?]?, failing, stop_after)
            }
            (Some(one), Some(two)) => {
                disk_of_two(alloc, copy_of(one)?, copy_of(two)?, failing, stop_after)
            }
        }
    }
}

fn copy_of(file: &(FileName, Vec<u8>)) -> Result<(FileName, Vec<u8>), Memory> {
    Ok((file.0.copy()?, file.1.clone()?))
}

fn disk_of_two(
    alloc: Global,
    one: (FileName, Vec<u8>),
    two: (FileName, Vec<u8>),
    failing: Vec<u64>,
    stop_after: Option<u64>,
) -> Result<MemDisk, Memory>
    ensures { IfOk result IsAlone }
{
    if one.0 == two.0 {
        return MemDisk::new(alloc, vec![in alloc; one]?, failing, stop_after);
    }
    MemDisk::new(alloc, vec![in alloc; one, two]?, failing, stop_after)
}
