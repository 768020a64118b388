//! What a command line can ask for.
use crate::extents::Extent;
use crate::meta_names::MetaName;
use crate::ways::Way;
use kdb_outside::Kind;
use key_merge::Strategy;
use key_name::{KeyName, NameFault};
use key_set::KeySet;

/// Why words ask for nothing.
#[derive(Clone, Copy)]
pub enum Refusal<'a> {
    NoCommand,
    UnknownCommand(&'a str),
    OptionsRefused,
    /// A word that is to be a name is none, for another cause than want of memory.
    NoName(NameFault),
    /// A word that is to be a metadata name, a format's word or a strategy's is none.
    NoArgument(&'a str),
}

/// What is done with a key.
#[derive(Drop)]
pub enum Action<'a> {
    Get,
    Set(&'a str),
    Remove(Extent),
    Names,
    GetMeta(MetaName<'a>),
    SetMeta(MetaName<'a>, &'a str),
    MetaNames,
    Bring {
        way: Way,
        extent: Extent,
        to: KeyName,
    },
    MountFile {
        file: &'a str,
        kind: Kind,
        by_key: bool,
    },
    Unmount,
    /// All keys at or below the name give way to these.
    Replace(KeySet),
    /// All keys at or below the name give way to what those at or below three names are merged into.
    Merge {
        strategy: Strategy,
        our: KeyName,
        their: KeyName,
        base: KeyName,
    },
}

/// What is asked of a store.
#[derive(Drop)]
pub enum Question<'a> {
    /// Its mounts.
    Mounts,
    /// The file that holds a key.
    FileOf(KeyName),
    /// The text of the keys at or below a name, in a format.
    TextOf { name: KeyName, kind: Kind },
    /// The rules that the keys at or below a name break.
    ViolationsOf(KeyName),
    /// What is done with a key.
    On { name: KeyName, action: Action<'a> },
}

/// What words ask for, which may be that keys of the input replace those at or below a name, a name that no file holds,
/// or why there is neither.
#[derive(Drop)]
pub enum Request<'a> {
    Refuses(Refusal<'a>),
    Bars(KeyName),
    Asks(Question<'a>),
    Imports { name: KeyName, kind: Kind },
}

/// A word that was to be a name: the name, or the request that the word makes in its place.
#[derive(Drop)]
pub enum Named<'a> {
    Is(KeyName),
    IsNone(Request<'a>),
}
