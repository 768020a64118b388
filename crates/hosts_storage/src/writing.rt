//! Writes a map as its text.
ghost use Rattle.std.specs.Prelude.{◌≡◌, ◌∷◌, [], ◌++◌, OnOk, IfOk, List, MatchResult, map as over};
ghost use Rattle.std.specs.FinMap as finite;
ghost use Rattle.model_names.specs.Name.{Name};
ghost use Rattle.model_maps.specs.Entry as model;
ghost use Rattle.model_lines.specs.Lines.{ended};
ghost use Rattle.model_hosts.specs.Comments.{texts_of as texts_of_meta};
ghost use Rattle.model_hosts.specs.Keys.{IsStorable, BreaksAt};
ghost use Rattle.model_hosts.specs.Text.{last_part, grouped, text};
ghost use Rattle.key_set.specs.EntryView.{entry_of};
ghost use Rattle.storage_api.specs.Formats.{RefusesToWrite};
ghost use Rattle.hosts_storage.specs.Tail.{tail_of};

use crate::comments::texts_of;
use crate::holding::is_hosts_key;
use key_meta::{Memory, Meta, Text};
use key_name::KeyName;
use key_set::{Entry, KeySet};
use std::alloc::Global;
use storage_api::WriteRefusal;

/// The text of a map; `NotStorable` where a key is neither a host's nor an alias's, with the first such key.
pub fn write(alloc: Global, keys: &KeySet) -> Result<Vec<u8>, WriteRefusal>
    ensures { MatchResult result (λ bytes. (bytes.items ≡ text keys.now) × IsStorable keys.now) (RefusesToWrite (BreaksAt keys.now)) }
{
    test(alloc, keys)?;
    Ok(text_of(alloc, keys)?)
}

/// Whether every key can be stored.
fn test(alloc: Global, keys: &KeySet) -> Result<(), WriteRefusal>
    ensures { MatchResult result (λ _. IsStorable keys.now) (RefusesToWrite (BreaksAt keys.now)) }
{
    for (name, entry) in keys.iter() {
        if !is_hosts_key(alloc, keys, name, entry)? {
            return Err(WriteRefusal::NotStorable { key: name.copy()? });
        }
    }
    Ok(())
}

fn text_of(alloc: Global, keys: &KeySet) -> Result<Vec<u8>, Memory>
    ensures { IfOk result (λ bytes. bytes.items ≡ text keys.now) }
{
    let mut bytes = Vec::new(alloc);
    if push_keys(&mut bytes, keys)? {
        bytes.push(b'\n')?;
    }
    Ok(bytes)
}

/// Appends the lines of all keys in name order, and answers whether the last one is open: aliases and a line feed may
/// follow.
fn push_keys(bytes: &mut Vec<u8>, keys: &KeySet) -> Result<bool, Memory>
    ensures { IfOk result (λ is_open. bytes.new.items ++ tail_of is_open ([], []) ≡ bytes.old.items ++ text keys.now) }
{
    let mut is_open = false;
    for (name, entry) in keys.iter() {
        is_open = push_key(bytes, is_open, name, entry)?;
    }
    Ok(is_open)
}

/// Appends a host's comments and the front of its line, or an alias to an open line, and answers whether a line is open
/// then.
fn push_key(
    bytes: &mut Vec<u8>,
    is_open: bool,
    name: &KeyName,
    entry: &Entry,
) -> Result<bool, Memory>
    ensures { IfOk result (λ opens. (left : List (Name × model.Entry)) → bytes.new.items ++ tail_of opens (grouped left) ≡ bytes.old.items ++ tail_of is_open (grouped ((name.now, entry_of entry.now) ∷ left))) }
{
    let last = last_part_of(name);
    if name.len() == 2 {
        if is_open {
            bytes.push(b'\n')?;
        }
        push_host(bytes, last, entry)?;
        return Ok(true);
    }
    if is_open {
        bytes.push(b' ')?;
        bytes.extend_from_slice(last)?;
    }
    Ok(is_open)
}

/// The last part of a name; a root has none.
fn last_part_of(name: &KeyName) -> &[u8]
    ensures { result.now ≡ last_part name.now.parts }
{
    match name.base_name() {
        Some(part) => part.as_bytes(),
        None => &[],
    }
}

/// Appends a host's comments, its address and its name.
fn push_host(bytes: &mut Vec<u8>, host: &[u8], entry: &Entry) -> Result<(), Memory>
    ensures { OnOk result (bytes.new.items ≡ bytes.old.items ++ (ended (over (λ text. 35 ∷ text) (texts_of_meta entry.now.meta)) ++ (entry.now.value ++ 9 ∷ host.now))) }
{
    push_comments(bytes, &entry.meta)?;
    bytes.extend_from_slice(entry.value.as_str().as_bytes())?;
    bytes.push(b'\t')?;
    bytes.extend_from_slice(host)?;
    Ok(())
}

/// Appends the lines of comments.
fn push_comments(bytes: &mut Vec<u8>, meta: &Meta) -> Result<(), Memory>
    ensures { OnOk result (bytes.new.items ≡ bytes.old.items ++ ended (over (λ text. 35 ∷ text) (texts_of_meta meta.now))) }
{
    let texts = texts_of(meta)?;
    push_lines(bytes, &texts)?;
    Ok(())
}

/// Appends texts as comments, each on its line.
fn push_lines(bytes: &mut Vec<u8>, texts: &[Text]) -> Result<(), Memory>
    ensures { OnOk result (bytes.new.items ≡ bytes.old.items ++ ended (over (λ text. 35 ∷ text) texts.now)) }
{
    for text in texts {
        bytes.push(b'#')?;
        bytes.extend_from_slice(text.as_str().as_bytes())?;
        bytes.push(b'\n')?;
    }
    Ok(())
}
