//! A mount with what its file means.

use crate::Cause;
use key_set::KeySet;
use mount_table::Mount;

/// What the file of a mount means. All keys have whole names.
#[derive(Drop)]
pub enum FileState {
    /// The keys that the mount owns, and those of its file that other mounts own. These are kept, and written back with
    /// the file.
    Good { visible: KeySet, shadow: KeySet },
    /// The file isn't used, and is never written.
    Bad { cause: Cause },
}

/// A mount, and the state of its file.
#[derive(Drop)]
pub struct MountedFile {
    pub mount: Mount,
    pub state: FileState,
}
