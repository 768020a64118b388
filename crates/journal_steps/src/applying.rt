//! The content of a file on its way into it.
ghost use Rattle.std.specs.Prelude.{◌≡◌, true, OnOk};
ghost use Rattle.kdb_outside.specs.Faults.{HasCause};
ghost use Rattle.kdb_outside.specs.Files.{KeepsOthers};
ghost use Rattle.kdb_outside.specs.Frames.{GoesOn};
ghost use Rattle.kdb_outside.specs.Images.{Only, KeepsOtherImages};
ghost use Rattle.journal_steps.specs.Moments.{AddsOnly, KeepsElse};

use journal_codec::FileText;
use kdb_outside::{Disk, Failed};

/// Gives a file its content: a write at its start, a cut behind it, and a sync. Err where the disk failed: the file may
/// then be whole or torn, and no other file changed.
pub fn put_file<D: Disk>(disk: &mut D, text: &FileText) -> Result<(), Failed>
    ensures durable { D.tells disk.old ≡ true → OnOk result (Only text.now.bytes (D.may_leave disk.new text.now.file)) }
    ensures others { D.tells disk.old ≡ true
        → KeepsOtherImages text.now.file (D.may_leave disk.old) (D.may_leave disk.new) }
    ensures seen { D.tells disk.old ≡ true → KeepsOthers text.now.file (D.seen disk.old) (D.seen disk.new) }
    ensures time { D.tells disk.old ≡ true
        → AddsOnly D.Disk disk.old disk.new (KeepsElse text.now.file (D.may_leave disk.old)) }
    ensures goes { GoesOn D.Disk disk.old disk.new }
    ensures cause { HasCause (D.faults disk.old) (D.faults disk.new) result }
{
    let bytes = text.bytes.as_slice();
    disk.write_at(&text.file, 0, bytes)?;
    disk.cut(&text.file, bytes.len() as u64)?;
    disk.sync(&text.file)
}
