//! What the steps of a batch's sessions answer.

use crate::{MergeFault, Merging, SetFault, UndoFault};
use key_meta::{List, Text};
use key_name::KeyName;
use mounted_files::GetFault;
use store_core::Done;
use watch_feed::News;

/// What one step of a session answers.
#[derive(Drop)]
pub enum Reply {
    /// A get: how many commits it found, and how many keys it gave.
    Got { front: u64, count: u64 },
    GetRefused(GetFault),
    /// An edit of the working set.
    Quiet,
    LookFound { name: KeyName, value: Text },
    LookNone,
    SetDone(Done),
    SetRefused(SetFault),
    Merged(Merging),
    MergeRefused(MergeFault),
    /// A watch: how many commits there were when it began.
    Watching { front: u64 },
    /// What a watch was asked for.
    News(News),
    /// Nothing is watched that could be asked.
    NoWatch,
    Undone(Done),
    UndoRefused(UndoFault),
    /// Want of memory. The step did nothing.
    Memory,
}

/// The replies of a batch: for each phase, and in it for each session with steps, one for each step.
#[derive(Drop)]
pub struct Transcripts {
    pub phases: List<List<List<Reply>>>,
}
