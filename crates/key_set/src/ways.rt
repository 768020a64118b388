//! The keys of a set under the names that lead to them from another.
ghost use Rattle.std.specs.Prelude.{◌≡◌, ◌∷◌, [], filter_map, IfOk, OnOk};
ghost use Rattle.std.specs.FinMap as map;
ghost use Rattle.std.specs.Str.{IsUtf8};
ghost use Rattle.key_meta.specs.MetaView.{AreTexts};
ghost use Rattle.key_set.specs.EntryView.{entry_of};
ghost use Rattle.key_set.specs.Sound.{AreSound};
ghost use Rattle.key_set.specs.WithAll.{with_keys};
ghost use Rattle.key_set.specs.Whole.{as_way, relative};

use crate::{Entry, KeySet};
use key_meta::Memory;
use key_name::KeyName;
use std::alloc::Global;

impl KeySet {
    /// The keys at or below a point, under the names that lead there. They are sound: names and texts of a set are
    /// names and texts.
    pub fn relative_to(&self, alloc: Global, point: &KeyName) -> Result<KeySet, Memory>
        ensures is { IfOk result (λ found. found ≡ relative point.now self.now) }
        ensures sound { IfOk result (λ found. AreSound point.now found) }
    {
        let mut all = KeySet::new(alloc);
        for (name, entry) in self.iter() {
            put_way(&mut all, point, name, entry)?;
        }
        Ok(all)
    }
}

/// Puts a key under the name that leads there from a point, if it is that or below it.
fn put_way(all: &mut KeySet, point: &KeyName, name: &KeyName, entry: &Entry) -> Result<(), Memory>
    ensures made { OnOk result (all.new ≡ with_keys (filter_map (as_way point.now) ((name.now, entry_of entry.now) ∷ [])) all.old) }
    ensures sound { AreSound point.now all.old → OnOk result (AreSound point.now all.new) }
{
    match name.relative_to(point)? {
        Some(way) => put(all, way, entry),
        None => Ok(()),
    }
}

/// Gives a name a copy of an entry, whose texts are texts.
fn put(keys: &mut KeySet, name: KeyName, entry: &Entry) -> Result<(), Memory>
    ensures made { OnOk result (keys.new ≡ map.insert keys.old name (entry_of entry.now)) }
    ensures value { OnOk result (IsUtf8 entry.now.value) }
    ensures texts { OnOk result (AreTexts entry.now.meta) }
{
    let _former = keys.append(name, entry.copy()?)?;
    Ok(())
}
