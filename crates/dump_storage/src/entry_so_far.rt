//! The entry of the present key, whose metadata are still read. No order of a file makes the work quadratic: a tree
//! takes the metadata as they come, and gives them up in order, so that each joins the others at their end.
ghost use Rattle.std.specs.Prelude.{◌≡◌, ◌<◌, ◌≤◌, length, IfOk};
ghost use Rattle.model_maps.specs.Entry.{longest_meta_name, plain_entry};
ghost use Rattle.key_set.specs.EntryView.{entry_of};
ghost use Rattle.dump_storage.specs.SoFarView.{PutsNew};

use key_meta::{Memory, Meta, Text};
use key_set::Entry;
use std::alloc::Global;
use std::collections::BTreeMap;
use std::marker::Model;

/// A value, and a text for each of some names.
#[derive(Drop)]
pub struct EntrySoFar {
    alloc: Global,
    value: Text,
    items: BTreeMap<Text, Text>,
}

impl Model for EntrySoFar {
    ghost use Rattle.std.specs.FinMap.{from_entries};
    ghost use Rattle.model_maps.specs.Entry.{Entry, coded_entry};
    ghost use Rattle.dump_storage.specs.SoFarView.{HaveMetaLengths};

    ghost Value = { Entry };

    ghost coded = { coded_entry };

    ghost view = { λ e. record { value = e.value; meta = from_entries e.items.entries } };

    ghost invariant = { λ e. HaveMetaLengths e.items.entries };
}

impl EntrySoFar {
    /// An entry with no metadata.
    pub fn new(alloc: Global, value: Text) -> EntrySoFar
        ensures { result ≡ plain_entry value }
    {
        EntrySoFar {
            alloc,
            value,
            items: BTreeMap::new(alloc),
        }
    }

    /// Gives a name a text, and answers whether the name is new. Else nothing changes. A name has 1 to
    /// `LONGEST_META_NAME` bytes.
    pub fn put_new(&mut self, name: &str, text: &str) -> Result<bool, Memory>
        requires some { 0 < length name.now }
        requires limit { length name.now ≤ longest_meta_name }
        ensures { IfOk result (PutsNew self.old name.now text.now self.new) }
    {
        let name = Text::new(self.alloc, name)?;
        if self.items.contains_key(&name) {
            return Ok(false);
        }
        let text = Text::new(self.alloc, text)?;
        self.items.insert(name, text)?;
        Ok(true)
    }

    /// The same entry as a key has it.
    pub fn into_entry(self) -> Result<Entry, Memory>
        ensures { IfOk result (λ entry. entry_of entry ≡ self) }
    {
        let EntrySoFar {
            alloc,
            value,
            items: mut left,
        } = self;
        let mut meta = Meta::new(alloc);
        while let Some((name, text)) = left.pop_first() {
            meta.set(name.as_str(), text.as_str())?;
        }
        Ok(Entry { value, meta })
    }
}
