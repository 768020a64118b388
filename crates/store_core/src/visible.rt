//! The keys of all mounts together.
ghost use Rattle.std.specs.Prelude.{◌≡◌, IfOk, OnOk};
ghost use Rattle.key_set.specs.WithAll.{with_all};
ghost use Rattle.mounted_files.specs.Visible.{visible_keys, visible_of};

use key_meta::Memory;
use key_set::KeySet;
use mounted_files::{FileState, MountedFile};
use std::alloc::Global;

/// The visible keys of some files.
pub(crate) fn visible_keys(alloc: Global, files: &[MountedFile]) -> Result<KeySet, Memory>
    ensures { IfOk result (λ keys. keys ≡ visible_keys files.now) }
{
    let mut keys = KeySet::new(alloc);
    for file in files {
        add_visible(&mut keys, &file.state)?;
    }
    Ok(keys)
}

/// Adds the visible keys of a file; a bad one has none.
fn add_visible(keys: &mut KeySet, state: &FileState) -> Result<(), Memory>
    ensures { OnOk result (keys.new ≡ with_all (visible_of state.now) keys.old) }
{
    match state {
        FileState::Good { visible, .. } => {
            keys.append_all(visible.copy()?)?;
            Ok(())
        }
        FileState::Bad { .. } => Ok(()),
    }
}
