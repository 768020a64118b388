//! What a script says: the keys that handles are opened with, and phase by phase the steps of the sessions that have
//! some.
use crate::{CommitNumber, MetaWord, Tries, WatchRoom};
use key_merge::Strategy;
use key_meta::{List, Text};
use key_name::KeyName;

/// A session's handle is opened with a key, whose name is in the namespace `proc`.
#[derive(Drop)]
pub struct ProcLine {
    pub session: u32,
    pub key: KeyName,
    pub value: Text,
}

/// One step of a session.
#[derive(Drop)]
pub enum Step {
    /// Gets the keys of a parent, which become the working set.
    Get {
        parent: KeyName,
    },
    /// Sets a value in the working set, and keeps the metadata.
    Put {
        name: KeyName,
        value: Text,
    },
    /// Sets metadata in the working set. A missing key gets the empty value.
    MetaStep {
        name: KeyName,
        meta: MetaWord,
        value: Text,
    },
    /// Takes a key out of the working set.
    Del {
        name: KeyName,
    },
    /// Takes a key and all below it out of the working set.
    Cut {
        name: KeyName,
    },
    /// Looks a key up in the specified set of the working set.
    Look {
        name: KeyName,
    },
    /// Sets the working set.
    Set {
        parent: KeyName,
    },
    /// Sets the working set in so many tries, each merged with what blocked the one before. The working set becomes
    /// what was set.
    Merge {
        parent: KeyName,
        strategy: Strategy,
        tries: Tries,
    },
    /// Watches from now on what changes at or below a parent, with room for so many changes. The watch before it ends.
    Watch {
        parent: KeyName,
        room: WatchRoom,
    },
    /// Asks what changed there since the watch began or was asked last.
    Poll,
    /// Takes a commit back, by a commit of its own. The working set becomes what was set.
    Undo {
        number: CommitNumber,
    },
}

/// The steps of a session in a phase, at least one.
#[derive(Drop)]
pub struct Steps {
    pub session: u32,
    pub steps: List<Step>,
}

/// The sessions that have steps in a phase, ascending.
#[derive(Drop)]
pub struct Phase {
    pub sessions: List<Steps>,
}

/// The keys that handles are opened with, in the order of their lines, of which the last counts for a key of a session;
/// and the phases, at least one.
#[derive(Drop)]
pub struct Script {
    pub proc: List<ProcLine>,
    pub phases: List<Phase>,
}
