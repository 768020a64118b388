//! Bytes that are written into a file and synced at once.
ghost use Rattle.std.specs.Prelude.{◌≡◌, ◌≤◌, length, true};
ghost use Rattle.kdb_outside.specs.Faults.{HasCause};
ghost use Rattle.kdb_outside.specs.Files.{KeepsOthers};
ghost use Rattle.kdb_outside.specs.Frames.{GoesOn};
ghost use Rattle.journal_steps.specs.Steps.{WritesThrough};

use kdb_outside::{Disk, Failed, FileName};

/// Writes the bytes at this place, at the file's end or before it, and syncs the file. Err where the disk failed: the
/// bytes may then be there whole or in part.
pub fn write_through<D: Disk>(
    disk: &mut D,
    file: &FileName,
    at: u64,
    bytes: &[u8],
) -> Result<(), Failed>
    requires { D.tells disk.old ≡ true → at ≤ length (D.seen disk.old file.now) }
    ensures writes { D.tells disk.old ≡ true → WritesThrough D.Disk disk.old disk.new result file.now at bytes.now }
    ensures seen { D.tells disk.old ≡ true → KeepsOthers file.now (D.seen disk.old) (D.seen disk.new) }
    ensures goes { GoesOn D.Disk disk.old disk.new }
    ensures cause { HasCause (D.faults disk.old) (D.faults disk.new) result }
{
    disk.write_at(file, at, bytes)?;
    disk.sync(file)
}
