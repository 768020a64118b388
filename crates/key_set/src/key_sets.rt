//! A finite map from names to entries, over chunks that copies share. No contract speaks of the chunks.
ghost use Rattle.std.specs.Prelude.{◌≡◌, length, IfOk, OnOk, OnErr, slice_get};
ghost use Rattle.std.specs.Option.{option_map, option_or};
ghost use Rattle.std.specs.FinMap as map;
ghost use Rattle.general_words.specs.Saturated.{saturated};
ghost use Rattle.model_names.specs.Name.{Name};
ghost use Rattle.model_maps.specs.KeyMap.{KeyMap, no_keys, weight, at_or_below, not_below};
ghost use Rattle.std.specs.Bool.{Decides};
ghost use Rattle.std.specs.Cmp.{partial_equiv_from_equiv};
ghost use Rattle.key_set.specs.EntryView.{entry_of};
ghost use Rattle.key_set.specs.Same.{same_keys, same_keys_equiv};
ghost use Rattle.key_set.specs.WithAll.{with_all};

use crate::ranges::range_below;
use crate::same::have_same;
use crate::weights::weight_of_all;
use crate::{Entry, KeySetIter};
use chunked_map::ChunkedMap;
use key_meta::Memory;
use key_name::KeyName;
use std::alloc::Global;
use std::marker::Model;

/// An entry for each of some names.
#[derive(Drop)]
pub struct KeySet {
    pub(crate) keys: ChunkedMap<KeyName, Entry>,
}

impl Model for KeySet {
    ghost use Rattle.model_maps.specs.KeyMap.{KeyMap, coded_keys};
    ghost use Rattle.key_set.specs.EntryView.{keys_of};

    ghost Value = { KeyMap };

    ghost coded = { coded_keys };

    ghost view = { λ s. keys_of s.keys };
}

impl KeySet {
    pub fn new(alloc: Global) -> KeySet
        ensures { result ≡ no_keys }
    {
        KeySet {
            keys: ChunkedMap::new(alloc),
        }
    }

    /// Where the set takes its memory from.
    pub fn allocator(&self) -> Global {
        self.keys.allocator()
    }

    /// How many keys there are.
    pub fn len(&self) -> usize
        ensures { result ≡ length (map.entries self.now) }
    {
        self.keys.len()
    }

    /// The name and the entry at a place in name order.
    pub fn at(&self, i: usize) -> Option<(&KeyName, &Entry)>
        ensures { option_map (λ key. (key.0.now, entry_of key.1.now)) result ≡ slice_get (map.entries self.now) i }
    {
        self.keys.at(i)
    }

    /// The entry of a name.
    pub fn lookup(&self, name: &KeyName) -> Option<&Entry>
        ensures { option_map (λ entry. entry_of entry.now) result ≡ map.get self.now name.now }
    {
        self.keys.get(name)
    }

    /// Gives a name an entry, and answers the entry that it had.
    pub fn append(&mut self, name: KeyName, entry: Entry) -> Result<Option<Entry>, Memory>
        ensures former { IfOk result (λ former. option_map entry_of former ≡ map.get self.old name) }
        ensures ok { OnOk result (self.new ≡ map.insert self.old name (entry_of entry)) }
        ensures err { OnErr result (self.new ≡ self.old) }
    {
        self.keys.insert(name, entry)
    }

    /// Gives each name of another set the entry that it has there.
    pub fn append_all(&mut self, other: KeySet) -> Result<(), Memory>
        ensures ok { OnOk result (self.new ≡ with_all other self.old) }
        ensures err { OnErr result (self.new ≡ self.old) }
    {
        if self.len() == 0 {
            *self = other;
            return Ok(());
        }
        self.keys.insert_all(other.keys)
    }

    /// Takes a name out, and answers the entry that it had.
    pub fn remove(&mut self, name: &KeyName) -> Result<Option<Entry>, Memory>
        ensures former { IfOk result (λ former. option_map entry_of former ≡ map.get self.old name.now) }
        ensures ok { OnOk result (self.new ≡ map.remove self.old name.now) }
        ensures err { OnErr result (self.new ≡ self.old) }
    {
        self.keys.remove(name)
    }

    /// Takes out the keys that are a name or below it, and answers them.
    pub fn cut(&mut self, at: &KeyName) -> Result<KeySet, Memory>
        ensures taken { IfOk result (λ taken. taken ≡ at_or_below at.now self.old) }
        ensures ok { OnOk result (self.new ≡ not_below at.now self.old) }
        ensures err { OnErr result (self.new ≡ self.old) }
    {
        let (from, to) = range_below(&self.keys, at);
        let keys = self.keys.take_range(from, to)?;
        Ok(KeySet { keys })
    }

    /// A copy of the keys that are a name or below it.
    pub fn below(&self, at: &KeyName) -> Result<KeySet, Memory>
        ensures { IfOk result (λ copied. copied ≡ at_or_below at.now self.now) }
    {
        let mut copied = self.copy()?;
        copied.cut(at)
    }

    /// The keys, in name order.
    pub fn iter(&self) -> KeySetIter<'_>
        ensures { result ≡ map.entries self.now }
    {
        KeySetIter {
            rest: self.keys.iter(),
        }
    }

    /// The same keys again. The two sets share them until one of them changes.
    pub fn copy(&self) -> Result<KeySet, Memory>
        ensures { IfOk result (λ copied. copied ≡ self.now) }
    {
        Ok(KeySet {
            keys: self.keys.copy()?,
        })
    }

    /// What the keys weigh. A weight beyond the type's end is given as its last value.
    pub fn weight(&self) -> u64
        ensures { result ≡ saturated (weight self.now) }
    {
        weight_of_all(&self.keys)
    }
}

impl PartialEq for KeySet {
    ghost eq = { same_keys };

    ghost laws = { partial_equiv_from_equiv same_keys_equiv };

    fn eq(&self, other: &KeySet) -> bool {
        have_same(&self.keys, &other.keys)
    }
}

impl Eq for KeySet {
    ghost laws = { same_keys_equiv };
}

/// Sets are equal exactly where they are the same finite map.
pub fn equal_sets_are_the_same_map()
    ensures { (keys other : KeyMap) → Decides (same_keys keys other) (keys ≡ other) }
{}

/// Of keys with others set among them, a name has the others' entry, and else the keys' own.
pub fn the_keys_set_last_are_found()
    ensures { (others keys : KeyMap) (name : Name)
        → map.get (with_all others keys) name ≡ option_or (map.get others name) (map.get keys name) }
{}
