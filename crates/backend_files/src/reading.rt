//! Reads a whole file, or tells that it is too long to be read.
ghost use Rattle.std.specs.Prelude.{◌≡◌, true, IfOk, Err};
ghost use Rattle.kdb_outside.specs.Faults.{HasRisen};
ghost use Rattle.kdb_outside.specs.Frames.{OnlyReads};
ghost use Rattle.backend_files.specs.WholeFile.{IsWhole, IsShort, IsGiven};

use kdb_outside::{Disk, FileName};
use key_meta::List;
use std::alloc::Global;

/// The most bytes of a file that is read, 1 MiB.
pub const LONGEST_FILE: u64 = 1048576;

/// What a file gives: its bytes, or its length where that is over 1 MiB.
#[derive(Drop)]
pub enum FileRead {
    Bytes(List<u8>),
    TooLong { bytes: u64 },
}

/// Why a file wasn't read.
#[derive(Clone, Copy, PartialEq, Eq)]
pub enum FileFault {
    DiskFault,
    Memory,
}

/// Asks for the length and, where it is 1 byte to 1 MiB, reads the file with one call. A missing file gives no bytes.
pub fn read_file<D: Disk>(
    alloc: Global,
    disk: &mut D,
    file: &FileName,
) -> Result<FileRead, FileFault>
    ensures told { D.tells disk.old ≡ true → IfOk result (IsWhole (D.seen disk.old file.now)) }
    ensures short { IfOk result IsShort }
    ensures given { IfOk result (IsGiven D.Disk disk.old file.now) }
    ensures cause { result ≡ Err FileFault.DiskFault → HasRisen (D.faults disk.old) (D.faults disk.new) }
    ensures reads { OnlyReads D.Disk disk.old disk.new }
{
    let length = disk.length(file).map_err(|_| FileFault::DiskFault)?;
    if length > LONGEST_FILE {
        return Ok(FileRead::TooLong { bytes: length });
    }
    if length == 0 {
        return Ok(FileRead::Bytes(List::from_vec(Vec::new(alloc))));
    }
    let mut bytes = vec![in alloc; 0; length as usize].map_err(|_| FileFault::Memory)?;
    let count = disk
        .read_at(file, 0, &mut bytes)
        .map_err(|_| FileFault::DiskFault)?;
    bytes.truncate(count);
    Ok(FileRead::Bytes(List::from_vec(bytes)))
}
