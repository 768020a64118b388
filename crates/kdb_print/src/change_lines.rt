//! The lines of what a commit changes.
ghost use Rattle.std.specs.Prelude.{◌≡◌, ◌++◌, ◌∷◌, [], OnOk, string_bytes, map as over};
ghost use Rattle.std.specs.FinMap as map;
ghost use Rattle.std.specs.List.{flat_map};
ghost use Rattle.commit_log.specs.CommitView.{change_of};
ghost use Rattle.kdb_print.specs.Printed.{line_of_meta, line_of_removal, lines_of_change, lines_of_key};
ghost use Rattle.key_set.specs.EntryView.{entry_of};
ghost use Rattle.model_lines.specs.Lines.{ended};

use crate::lines::push_line;
use commit_log::Change;
use kdb_text::{quoted, shown};
use key_meta::{Memory, Meta};
use key_name::KeyName;
use key_set::Entry;
use std::alloc::Global;

/// Adds the lines of some changes.
pub fn push_changes(alloc: Global, text: &mut String, changes: &[Change]) -> Result<(), Memory>
    ensures { OnOk result (string_bytes text.new ≡ string_bytes text.old ++ ended (flat_map lines_of_change (over change_of changes.now))) }
{
    for change in changes {
        push_change(alloc, text, change)?;
    }
    Ok(())
}

/// Adds the lines of a change.
fn push_change(alloc: Global, text: &mut String, change: &Change) -> Result<(), Memory>
    ensures { OnOk result (string_bytes text.new ≡ string_bytes text.old ++ ended (lines_of_change (change_of change.now))) }
{
    match &change.entry {
        Some(entry) => push_key(alloc, text, &change.name, entry),
        None => push_removal(alloc, text, &change.name),
    }
}

/// Adds the line of a key that is removed.
fn push_removal(alloc: Global, text: &mut String, name: &KeyName) -> Result<(), Memory>
    ensures { OnOk result (string_bytes text.new ≡ string_bytes text.old ++ ended (line_of_removal name.now ∷ [])) }
{
    let name = shown(alloc, name)?;
    let line = format!(in alloc; "- {name}")?;
    push_line(text, line.as_str())
}

/// Adds the line of a key, and behind it one for each of its metadata.
fn push_key(alloc: Global, text: &mut String, name: &KeyName, entry: &Entry) -> Result<(), Memory>
    ensures { OnOk result (string_bytes text.new ≡ string_bytes text.old ++ ended (lines_of_key name.now (entry_of entry.now))) }
{
    let name = shown(alloc, name)?;
    let value = quoted(alloc, entry.value.as_str())?;
    let line = format!(in alloc; "+ {name} {value}")?;
    push_line(text, line.as_str())?;
    push_metadata(alloc, text, &entry.meta)
}

/// Adds a line for each of some metadata.
fn push_metadata(alloc: Global, text: &mut String, metadata: &Meta) -> Result<(), Memory>
    ensures { OnOk result (string_bytes text.new ≡ string_bytes text.old ++ ended (over line_of_meta (map.entries metadata.now))) }
{
    for (name, meta) in metadata.iter() {
        push_meta(alloc, text, name, meta)?;
    }
    Ok(())
}

/// Adds the line of one metadata.
fn push_meta(alloc: Global, text: &mut String, name: &str, meta: &str) -> Result<(), Memory>
    ensures { OnOk result (string_bytes text.new ≡ string_bytes text.old ++ ended (line_of_meta (name.now, meta.now) ∷ [])) }
{
    let name = quoted(alloc, name)?;
    let meta = quoted(alloc, meta)?;
    let line = format!(in alloc; ". {name} {meta}")?;
    push_line(text, line.as_str())
}
