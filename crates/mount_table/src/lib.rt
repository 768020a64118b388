//! Which file holds the keys below which name: the mount table, read from the keys of its entries, and changed in them.
#![tactic(auto)]

mod changing;
mod children;
mod defaults;
mod entries;
mod faults;
mod laws;
mod mounts;
mod own;
mod points;
mod reading;
mod tables;

pub use changing::{add, remove};
pub use faults::TableFault;
pub use laws::{
    a_mount_by_key_has_a_format_that_takes_keys_alone, a_name_with_files_has_an_owner,
    a_table_has_a_mount_for_each_entry, a_table_is_refused_for_its_entries_or_their_number,
    the_mount_of_a_tables_own_keys_counts_by_backend,
    the_mounts_of_a_table_have_files_of_their_own,
};
pub use mounts::Mount;
pub use own::{is_own_point, own_file, own_point};
pub use tables::MountTable;
