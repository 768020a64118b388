//! Laws of mount tables.
ghost use Rattle.std.specs.Prelude.{◌≡◌, ◌<◌, ◌≤◌, ℕ, ◌+◌, nat_eq, false, List, length, map as over, slice_get, Some, Ok, Err, codes, true};
ghost use Rattle.std.specs.FinMap as map;
ghost use Rattle.std.specs.List.{starts_with};
ghost use Rattle.model_maps.specs.KeyMap.{KeyMap};
ghost use Rattle.kdb_outside.specs.FileName.{IsFileName};
ghost use Rattle.key_name.specs.Owner.{owner_of};
ghost use Rattle.model_names.specs.Name.{Name};
ghost use Rattle.model_names.specs.Namespaces.{has_files};
ghost use Rattle.mount_table.specs.Answers.{IsOfTable};
ghost use Rattle.mount_table.specs.Counting.{may_count};
ghost use Rattle.mount_table.specs.Entries.{entries_of};
ghost use Rattle.mount_table.specs.Points.{own_point};
ghost use Rattle.mount_table.specs.Table.{most_mounts, remaining, table_of};
ghost use Rattle.mount_table.specs.declared.faults.TableFault.{TableFault};
ghost use Rattle.mount_table.specs.declared.mounts.Mount.{Mount};

/// Keys make no table for what is wrong with an entry, or for the number of mounts: never for what adding or removing
/// an entry is refused for, nor for want of memory.
pub fn a_table_is_refused_for_its_entries_or_their_number()
    ensures { (keys : KeyMap) (fault : TableFault) → table_of keys ≡ Err fault → IsOfTable fault }
{}

/// A table has one mount for each entry, and one for each default mount that remains.
pub fn a_table_has_a_mount_for_each_entry()
    ensures { (keys : KeyMap) (mounts : List Mount) → table_of keys ≡ Ok mounts
        → length mounts ≡ length (remaining (entries_of keys)) + length (map.entries (entries_of keys)) }
{}

/// Each mount of a table has a file of its own: a file's name that doesn't begin with `journal`. There are at most 64
/// of them.
pub fn the_mounts_of_a_table_have_files_of_their_own()
    ensures own { (keys : KeyMap) (mounts : List Mount) → table_of keys ≡ Ok mounts → (i j : ℕ) (one other : Mount)
        → slice_get mounts i ≡ Some one → slice_get mounts j ≡ Some other → one.file ≡ other.file → i ≡ j }
    ensures named { (keys : KeyMap) (mounts : List Mount) → table_of keys ≡ Ok mounts → (i : ℕ) (mount : Mount)
        → slice_get mounts i ≡ Some mount → IsFileName mount.file }
    ensures free { (keys : KeyMap) (mounts : List Mount) → table_of keys ≡ Ok mounts → (i : ℕ) (mount : Mount)
        → slice_get mounts i ≡ Some mount → starts_with nat_eq mount.file (codes "journal") ≡ false }
    ensures few { (keys : KeyMap) (mounts : List Mount) → table_of keys ≡ Ok mounts → length mounts ≤ most_mounts }
{}

/// A mount of a table counts conflicts by key only where its format takes each key beside any others.
pub fn a_mount_by_key_has_a_format_that_takes_keys_alone()
    ensures { (keys : KeyMap) (mounts : List Mount) → table_of keys ≡ Ok mounts → (m : ℕ) (mount : Mount)
        → slice_get mounts m ≡ Some mount → mount.by_key ≡ true → may_count mount.kind ≡ true }
{}

/// The mount of a table's own keys counts conflicts by its backend.
pub fn the_mount_of_a_tables_own_keys_counts_by_backend()
    ensures { (keys : KeyMap) (mounts : List Mount) → table_of keys ≡ Ok mounts → (m : ℕ) (mount : Mount)
        → slice_get mounts m ≡ Some mount → mount.at ≡ own_point → mount.by_key ≡ false }
{}

/// A name whose keys are in files belongs to a mount of each table: at least to that at the root of its namespace.
pub fn a_name_with_files_has_an_owner()
    ensures { (keys : KeyMap) (mounts : List Mount) (name : Name) → table_of keys ≡ Ok mounts
        → has_files name.namespace ≡ true
        → (m : ℕ) × (m < length mounts) × (owner_of (over (λ mount. mount.at) mounts) name ≡ Some m) }
{}
