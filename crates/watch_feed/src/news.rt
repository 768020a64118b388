//! What a watch tells.

use key_meta::List;
use key_name::KeyName;

/// A change: in the commit of this number, the name got a new entry, or its key was removed.
#[derive(Drop)]
pub struct Changed {
    pub number: u64,
    pub name: KeyName,
    pub removed: bool,
}

/// What a watch has to tell: how many commits it has looked at, how many changes it had no room for, and those that
/// came last.
#[derive(Drop)]
pub struct News {
    pub front: u64,
    pub missed: u64,
    pub changes: List<Changed>,
}
