//! From the entries to their mounts, up to the first entry that is faulty.
ghost use Rattle.std.specs.Prelude.{◌≡◌, ◌||◌, ◌∷◌, ◌++◌, [], ℕ, List, IfOk, IfErr, OnOk, Ok, is_some};
ghost use Rattle.std.specs.FinMap.{find};
ghost use Rattle.general_words.specs.Texts.{is_text, text_cmp};
ghost use Rattle.mount_table.specs.Answers.{Gives, IsFault};
ghost use Rattle.mount_table.specs.Counting.{counted_by, counting_said, may_count};
ghost use Rattle.mount_table.specs.Reading.{counted, kind_said, mount_of, next_mount, is_taken, mounts_from};

use crate::entries::MountEntry;
use crate::points::{file_of, point_of};
use crate::{Mount, TableFault};
use kdb_outside::{FileName, Kind};
use key_meta::{Memory, Text};
use sorted_map::SortedMap;
use std::alloc::Global;

/// Some mounts and those of some entries behind them.
pub fn mounts_from(
    alloc: Global,
    mut mounts: Vec<Mount>,
    entries: &[(Text, MountEntry)],
) -> Result<Vec<Mount>, TableFault>
    ensures ok { IfOk result (λ all. mounts_from mounts.items entries.now ≡ Ok all.items) }
    ensures err { IfErr result (IsFault (mounts_from mounts.items entries.now)) }
{
    let mut files = files_of(alloc, &mounts)?;
    for entry in entries {
        let mount = next_mount(alloc, &files, &entry.0, &entry.1)?;
        take_file(&mut files, &mount.file)?;
        push(&mut mounts, mount)?;
    }
    Ok(mounts)
}

fn push(mounts: &mut Vec<Mount>, mount: Mount) -> Result<(), Memory>
    ensures { OnOk result (mounts.new.items ≡ mounts.old.items ++ mount ∷ []) }
{
    mounts.push(mount)?;
    Ok(())
}

/// Adds a file to those that are taken.
fn take_file(files: &mut SortedMap<FileName, ()>, file: &FileName) -> Result<(), Memory>
    ensures { OnOk result ((other : List ℕ) → is_some (find text_cmp other files.new) ≡ (is_text other file.now || is_some (find text_cmp other files.old))) }
{
    files.insert(file.copy()?, ())?;
    Ok(())
}

/// The files of some mounts. They are kept in order, so that a table may have many entries.
fn files_of(alloc: Global, mounts: &[Mount]) -> Result<SortedMap<FileName, ()>, Memory>
    ensures { IfOk result (λ files. (file : List ℕ) → is_some (find text_cmp file files) ≡ is_taken mounts.now file) }
{
    let mut files = SortedMap::new(alloc);
    for mount in mounts {
        take_file(&mut files, &mount.file)?;
    }
    Ok(files)
}

/// The mount of an entry, whose file isn't among those that are taken.
fn next_mount(
    alloc: Global,
    files: &SortedMap<FileName, ()>,
    text: &Text,
    said: &MountEntry,
) -> Result<Mount, TableFault>
    ensures { Gives result (next_mount (λ file. is_some (find text_cmp file files.now)) text.now said.now) }
{
    let mount = mount_of(alloc, text, said)?;
    if files.get(&mount.file).is_some() {
        return Err(TableFault::FileTwice {
            entry: text.copy()?,
        });
    }
    counted(text, said, mount)
}

/// A mount, with its conflicts counted as its entry says.
fn counted(text: &Text, said: &MountEntry, mount: Mount) -> Result<Mount, TableFault>
    ensures { Gives result (counted text.now said.now mount) }
{
    let Some(by_key) = counting_said(mount.kind, &said.conflicts) else {
        return Err(TableFault::BadConflicts {
            entry: text.copy()?,
        });
    };
    Ok(Mount { by_key, ..mount })
}

/// How an entry says that its conflicts are counted: whether by key.
fn counting_said(kind: Kind, conflicts: &Option<Text>) -> Option<bool>
    ensures { result ≡ counting_said kind conflicts.now }
{
    match conflicts {
        Some(word) => counted_by(kind, word.as_str()),
        None => Some(false),
    }
}

/// What a word of the child `conflicts` says for a format.
fn counted_by(kind: Kind, word: &str) -> Option<bool>
    ensures { result ≡ counted_by kind word.now }
{
    match word {
        "keys" => { if may_count(kind) { Some(true) } else { None } }
        "backend" => Some(false),
        _ => None,
    }
}

/// Whether a file of this format can take each key beside any others, so that its mount may count by key.
fn may_count(kind: Kind) -> bool
    ensures { result ≡ may_count kind }
{
    match kind {
        Kind::Dump | Kind::SimpleIni => true,
        Kind::Hosts | Kind::Json => false,
    }
}

/// The mount of an entry by itself.
fn mount_of(alloc: Global, text: &Text, said: &MountEntry) -> Result<Mount, TableFault>
    ensures { Gives result (mount_of text.now said.now) }
{
    let Some(at) = point_of(alloc, text.as_str())? else {
        return Err(TableFault::BadMountpoint {
            entry: text.copy()?,
        });
    };
    let Some(path) = &said.path else {
        return Err(TableFault::NoPath {
            entry: text.copy()?,
        });
    };
    let Some(file) = file_of(alloc, path.as_str())? else {
        return Err(TableFault::BadPath {
            entry: text.copy()?,
        });
    };
    let Some(kind) = kind_said(&said.plugin) else {
        return Err(TableFault::UnknownPlugin {
            entry: text.copy()?,
        });
    };
    Ok(Mount {
        at,
        file,
        kind,
        by_key: false,
    })
}

/// The format of an entry, by its child `plugin`.
fn kind_said(plugin: &Option<Text>) -> Option<Kind>
    ensures { result ≡ kind_said plugin.now }
{
    match plugin {
        Some(word) => Kind::of(word.as_str()),
        None => Some(Kind::Dump),
    }
}
