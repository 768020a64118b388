//! One mount of a table.
ghost use Rattle.std.specs.Prelude.{◌≡◌, IfOk};

use kdb_outside::{FileName, Kind};
use key_meta::Memory;
use key_name::KeyName;

/// A mountpoint, and the file that holds the keys from there on, in its format.
#[derive(Drop)]
pub struct Mount {
    pub at: KeyName,
    pub file: FileName,
    pub kind: Kind,
    /// Whether conflicts are counted by key, and not by the whole backend.
    pub by_key: bool,
}

impl Mount {
    /// The same mount again, in memory of its own.
    pub fn copy(&self) -> Result<Mount, Memory>
        ensures { IfOk result (λ copied. copied ≡ self.now) }
    {
        Ok(Mount {
            at: self.at.copy()?,
            file: self.file.copy()?,
            kind: self.kind,
            by_key: self.by_key,
        })
    }
}
