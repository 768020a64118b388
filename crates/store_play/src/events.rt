//! What is asked of a store, and what it answers.

use key_name::KeyName;
use key_set::KeySet;
use mounted_files::GetFault;
use store_core::{CommitFault, Done, Got};
use store_verdict::PrepareFault;

/// What a handle asks. A set is prepared under a number, and committed by it.
#[derive(Drop)]
pub enum Event {
    Get {
        handle: usize,
        parent: KeyName,
    },
    Prepare {
        handle: usize,
        number: usize,
        parent: KeyName,
        keys: KeySet,
    },
    Commit {
        handle: usize,
        number: usize,
    },
}

/// Why an event made no call.
#[derive(Clone, Copy, PartialEq, Eq)]
pub enum Skip {
    /// There is no such handle.
    NoHandle,
    /// There is no place for a set of this number.
    NoPlace,
    /// No set of this number was prepared since one was committed.
    NoSet,
    /// The handle doesn't accept the set any more: it is another's, or the handle fetched an involved mount or
    /// committed since.
    NotAccepted,
}

/// What became of an event.
#[derive(Drop)]
pub enum Answer {
    Got(Result<Got, GetFault>),
    Prepared(Result<(), PrepareFault>),
    Committed(Result<Done, CommitFault>),
    Skipped(Skip),
}

/// How flushes between events went: how many wrote what waited, found nothing that waits, and failed.
#[derive(Clone, Copy, PartialEq, Eq)]
pub struct Flushes {
    pub wrote: u64,
    pub idle: u64,
    pub failed: u64,
}
