//! Which mounts count conflicts by key.
ghost use Rattle.std.specs.Prelude.{◌≡◌};
ghost use Rattle.std.specs.List.{list_any};
ghost use Rattle.model_store.specs.Store.{counts_in};

use mount_table::MountTable;

/// Whether the mount of a number counts conflicts by key.
pub fn counts_by_key(table: &MountTable, mount: usize) -> bool
    ensures { result ≡ counts_in table.now mount }
{
    match table.mount(mount) {
        Some(mount) => mount.by_key,
        None => false,
    }
}

/// Whether one of some mounts does.
pub fn any_counts_by_key(table: &MountTable, mounts: &[u32]) -> bool
    ensures { result ≡ list_any (counts_in table.now) mounts.now }
{
    for mount in mounts {
        if counts_by_key(table, *mount as usize) {
            return true;
        }
    }
    false
}
