//! The entries of a mount table, collected from the keys below `system:/elektra/mountpoints`.
ghost use Rattle.std.specs.Prelude.{◌≡◌, None, IfOk, OnOk};
ghost use Rattle.std.specs.Option.{option_map};
ghost use Rattle.std.specs.FinMap as map;
ghost use Rattle.key_name.specs.Children as names;
ghost use Rattle.key_name.specs.Children.{child_refusal};
ghost use Rattle.model_names.specs.WellFormed.{IsName};
ghost use Rattle.general_words.specs.Texts.{text_cmp};
ghost use Rattle.mount_table.specs.Entries.{AreNames, Notes, entries_of, said_by, value_at};
ghost use Rattle.mount_table.specs.Places.{mountpoints, text_of_entry};

use crate::children::{child_of, mountpoints};
use key_meta::{Memory, Text};
use key_name::{KeyName, NameFault};
use key_set::KeySet;
use sorted_map::SortedMap;
use std::alloc::{AllocError, Global};

/// What an entry says: the values of its children `path`, `plugin` and `conflicts`.
#[derive(Drop)]
pub struct MountEntry {
    pub path: Option<Text>,
    pub plugin: Option<Text>,
    pub conflicts: Option<Text>,
}

/// The entries among some keys.
pub fn entries_of(alloc: Global, keys: &KeySet) -> Result<SortedMap<Text, MountEntry>, Memory>
    ensures { IfOk result (λ entries. map.from_sorted {R = text_cmp} entries ≡ entries_of keys.now) }
{
    let above = mountpoints(alloc)?;
    let mut entries = SortedMap::new(alloc);
    for (name, _) in keys.iter() {
        note(&mut entries, keys, &above, name)?;
    }
    Ok(entries)
}

/// Notes the entry that a name belongs to, with what it says, unless it is noted.
fn note(
    entries: &mut SortedMap<Text, MountEntry>,
    keys: &KeySet,
    above: &KeyName,
    name: &KeyName,
) -> Result<(), Memory>
    requires { above.now ≡ mountpoints }
    ensures noted { OnOk result (AreNames keys.now → Notes keys.now name.now (map.from_sorted entries.old) (map.from_sorted entries.new)) }
    ensures well_formed { IsName name.now }
{
    let text = match text_of_entry(above, name) {
        Some(text) => text,
        None => return Ok(()),
    };
    let text = Text::new(keys.allocator(), text)?;
    if entries.get(&text).is_some() {
        return Ok(());
    }
    let said = said_by(keys, above, text.as_str())?;
    entries.insert(text, said)?;
    Ok(())
}

/// What the entry of a text says.
fn said_by(keys: &KeySet, above: &KeyName, text: &str) -> Result<MountEntry, Memory>
    requires above { above.now ≡ mountpoints }
    requires name { child_refusal mountpoints text.now ≡ None }
    ensures { IfOk result (λ said. AreNames keys.now → said ≡ said_by keys.now text.now) }
{
    let entry = child_of(above, text)?;
    Ok(MountEntry {
        path: value_of(keys, &entry, "path")?,
        plugin: value_of(keys, &entry, "plugin")?,
        conflicts: value_of(keys, &entry, "conflicts")?,
    })
}

/// The value of a child. Where its name would be too long, there is none.
fn value_of(keys: &KeySet, above: &KeyName, part: &str) -> Result<Option<Text>, Memory>
    ensures { IfOk result (λ value. AreNames keys.now → value ≡ value_at keys.now (names.child_of above.now part.now)) }
{
    match above.child(part) {
        Ok(name) => match keys.lookup(&name) {
            Some(entry) => Ok(Some(entry.value.copy()?)),
            None => Ok(None),
        },
        Err(fault) => match fault {
            NameFault::Memory => Err(AllocError),
            _ => Ok(None),
        },
    }
}

/// The text of the entry that a name belongs to.
pub fn text_of_entry<'a>(above: &KeyName, name: &'a KeyName) -> Option<&'a str>
    requires { above.now ≡ mountpoints }
    ensures text { option_map (λ text. text.now) result ≡ text_of_entry name.now }
    ensures well_formed { IsName name.now }
{
    // The mountpoints' name has two parts, and those below it have more.
    if name.len() < 3 {
        return None;
    }
    if name.is_below_or_same(above) {
        name.part(2)
    } else {
        None
    }
}
