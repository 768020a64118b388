//! Keys put into a set.
ghost use Rattle.std.specs.Prelude.{◌≡◌, OnOk};
ghost use Rattle.std.specs.FinMap as map;
ghost use Rattle.std.specs.Str.{IsUtf8};
ghost use Rattle.key_meta.specs.MetaView.{AreTexts};
ghost use Rattle.key_set.specs.EntryView.{entry_of};

use key_meta::Memory;
use key_name::KeyName;
use key_set::{Entry, KeySet};

/// Gives a name a copy of an entry, whose texts are texts.
pub fn put(keys: &mut KeySet, name: KeyName, entry: &Entry) -> Result<(), Memory>
    ensures made { OnOk result (keys.new ≡ map.insert keys.old name (entry_of entry.now)) }
    ensures value { OnOk result (IsUtf8 entry.now.value) }
    ensures texts { OnOk result (AreTexts entry.now.meta) }
{
    let _former = keys.append(name, entry.copy()?)?;
    Ok(())
}
