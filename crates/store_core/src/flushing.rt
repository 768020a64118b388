//! The entries that commits left in the journal, on their way into their files.
ghost use Rattle.store_core.specs.Flushes.{FlushesStore};

use crate::Core;
use kdb_outside::{Disk, Failed};
use regex_check::Patterns;
use store_phases::flush;

impl<D: Disk, P: Patterns + Drop> Core<D, P> {
    /// Writes the files of the commits whose entries wait in the journal. False exactly where none waits, and then the
    /// disk is not called. A failure tells that the disk failed in this call; the commits are stored all the same, and
    /// a later flush or the closing tries again.
    pub fn flush(&mut self) -> Result<bool, Failed>
        ensures { FlushesStore D.Disk self.old self.new result }
    {
        flush(&mut self.journal)
    }
}
