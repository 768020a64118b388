//! Entries added to the keys of a mount table, and removed from them.
ghost use Rattle.std.specs.Prelude.{◌≡◌, ◌≤◌, if◌then◌else◌, Ok, None, IfOk, IfErr, OnOk, OnErr, true, length};
ghost use Rattle.std.specs.FinMap as map;
ghost use Rattle.key_name.specs.Children as names;
ghost use Rattle.key_name.specs.Children.{child_refusal};
ghost use Rattle.model_names.specs.Below.{is_at_or_below};
ghost use Rattle.model_names.specs.Spelling.{spelling};
ghost use Rattle.model_names.specs.WellFormed.{IsName};
ghost use Rattle.model_maps.specs.Entry.{plain_entry};
ghost use Rattle.key_set.specs.EntryView.{entry_of as seen};
ghost use Rattle.mount_table.specs.Answers.{IsFault};
ghost use Rattle.mount_table.specs.Counting.{keys_word, word_added};
ghost use Rattle.mount_table.specs.Changing.{HasNames, added, removed};
ghost use Rattle.mount_table.specs.Entries.{has_entry, said_added, with_entry};
ghost use Rattle.mount_table.specs.Points.{longest_point};
ghost use Rattle.mount_table.specs.Places.{mountpoints, entry_name, conflicts_word};

use crate::TableFault;
use crate::children::{child_of, entry_name, mountpoints};
use crate::entries::{MountEntry, entries_of, text_of_entry};
use crate::tables::table_from;
use kdb_outside::Kind;
use key_meta::{Memory, Meta, Text};
use key_name::KeyName;
use key_set::{Entry, KeySet};
use std::alloc::Global;

/// Adds the entry of a mountpoint, with its children `path` and `plugin`, and with `conflicts` where its conflicts are
/// to be counted by key.
///
/// `AlreadyMounted` comes where any key is the entry or below it, and else what `read_table` refuses of the keys with
/// the children added. A mountpoint whose spelling has over 1,024 bytes counts there as any other, and so it is a bad
/// one, even where the names of the children would be too long. After a refusal the keys are as before.
pub fn add(
    alloc: Global,
    keys: &mut KeySet,
    at: &KeyName,
    file: &str,
    kind: Kind,
    by_key: bool,
) -> Result<(), TableFault>
    ensures ok { OnOk result (added keys.old (spelling at.now) file.now kind by_key ≡ Ok keys.new) }
    ensures err { IfErr result (IsFault (added keys.old (spelling at.now) file.now kind by_key)) }
    ensures same { OnErr result (keys.new ≡ keys.old) }
{
    let text = Text::new(alloc, &at.text()?)?;
    check_addition(alloc, keys, &text, file, kind, by_key)?;
    insert_children(alloc, keys, text.as_str(), file, kind, by_key)?;
    Ok(())
}

/// Removes the entry of a mountpoint, and all keys below it. `NotMounted` comes where no key is the entry or below it.
/// After a refusal the keys are as before.
pub fn remove(alloc: Global, keys: &mut KeySet, at: &KeyName) -> Result<(), TableFault>
    ensures ok { OnOk result (removed keys.old (spelling at.now) ≡ Ok keys.new) }
    ensures err { IfErr result (IsFault (removed keys.old (spelling at.now))) }
    ensures same { OnErr result (keys.new ≡ keys.old) }
{
    let text = Text::new(alloc, &at.text()?)?;
    let above = mountpoints(alloc)?;
    if !has_entry(keys, &above, text.as_str()) {
        return Err(TableFault::NotMounted { entry: text });
    }
    let name = child_of(&above, text.as_str())?;
    keys.cut(&name)?;
    Ok(())
}

/// Looks whether an entry may be added, without adding it.
fn check_addition(
    alloc: Global,
    keys: &KeySet,
    text: &Text,
    file: &str,
    kind: Kind,
    by_key: bool,
) -> Result<(), TableFault>
    ensures ok { OnOk result (added keys.now text.now file.now kind by_key ≡ Ok (with_entry keys.now text.now file.now kind by_key)) }
    ensures short { OnOk result (length text.now ≤ longest_point) }
    ensures err { IfErr result (IsFault (added keys.now text.now file.now kind by_key)) }
{
    let mut entries = entries_of(alloc, keys)?;
    if entries.get(text).is_some() {
        return Err(TableFault::AlreadyMounted {
            entry: text.copy()?,
        });
    }
    entries.insert(text.copy()?, entry_of(alloc, file, kind, by_key)?)?;
    let _table = table_from(alloc, &entries)?;
    Ok(())
}

/// Whether some key is the entry of a text or stands below it.
fn has_entry(keys: &KeySet, above: &KeyName, text: &str) -> bool
    requires { above.now ≡ mountpoints }
    ensures has { result ≡ has_entry keys.now text.now }
    ensures name { result ≡ true → child_refusal mountpoints text.now ≡ None }
{
    for (name, _) in keys.iter() {
        if belongs_to(above, name, text) {
            return true;
        }
    }
    false
}

/// Whether a name belongs to the entry of a text.
fn belongs_to(above: &KeyName, name: &KeyName, text: &str) -> bool
    requires { above.now ≡ mountpoints }
    ensures belongs { result ≡ is_at_or_below (entry_name text.now) name.now }
    ensures well_formed { IsName name.now }
{
    match text_of_entry(above, name) {
        Some(other) => text == other,
        None => false,
    }
}

/// What an entry that is added says.
fn entry_of(alloc: Global, file: &str, kind: Kind, by_key: bool) -> Result<MountEntry, Memory>
    ensures { IfOk result (λ said. said ≡ said_added file.now kind by_key) }
{
    Ok(MountEntry {
        path: Some(Text::new(alloc, file)?),
        plugin: Some(Text::new(alloc, kind.word())?),
        conflicts: word_added(alloc, by_key)?,
    })
}

/// What an entry that is added says of how conflicts are counted.
fn word_added(alloc: Global, by_key: bool) -> Result<Option<Text>, Memory>
    ensures { IfOk result (λ word. word ≡ word_added by_key) }
{
    if by_key {
        Ok(Some(Text::new(alloc, "keys")?))
    } else {
        Ok(None)
    }
}

/// Adds the children of an entry, or none of them.
fn insert_children(
    alloc: Global,
    keys: &mut KeySet,
    text: &str,
    file: &str,
    kind: Kind,
    by_key: bool,
) -> Result<(), Memory>
    requires { HasNames text.now }
    ensures ok { OnOk result (keys.new ≡ with_entry keys.old text.now file.now kind by_key) }
    ensures err { OnErr result (keys.new ≡ keys.old) }
{
    let name = entry_name(alloc, text)?;
    let mut all = keys.copy()?;
    insert_child(alloc, &mut all, &name, "path", file)?;
    insert_child(alloc, &mut all, &name, "plugin", kind.word())?;
    insert_word(alloc, &mut all, &name, by_key)?;
    *keys = all;
    Ok(())
}

/// Adds what an entry says of how conflicts are counted.
fn insert_word(alloc: Global, keys: &mut KeySet, name: &KeyName, by_key: bool) -> Result<(), Memory>
    requires { child_refusal name.now conflicts_word ≡ None }
    ensures { OnOk result (keys.new ≡ (if by_key then map.insert keys.old (names.child_of name.now conflicts_word) (plain_entry keys_word) else keys.old)) }
{
    if by_key {
        insert_child(alloc, keys, name, "conflicts", "keys")
    } else {
        Ok(())
    }
}

/// Adds a child of an entry, with its value.
fn insert_child(
    alloc: Global,
    keys: &mut KeySet,
    name: &KeyName,
    part: &str,
    value: &str,
) -> Result<(), Memory>
    requires { child_refusal name.now part.now ≡ None }
    ensures { OnOk result (keys.new ≡ map.insert keys.old (names.child_of name.now part.now) (plain_entry value.now)) }
{
    let child = child_of(name, part)?;
    let entry = plain_entry(alloc, value)?;
    keys.append(child, entry)?;
    Ok(())
}

fn plain_entry(alloc: Global, value: &str) -> Result<Entry, Memory>
    ensures { IfOk result (λ entry. seen entry ≡ plain_entry value.now) }
{
    Ok(Entry {
        value: Text::new(alloc, value)?,
        meta: Meta::new(alloc),
    })
}
