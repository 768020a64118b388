//! How far a dump was read: the keys that its records so far make.
ghost use Rattle.std.specs.Prelude.{◌≡◌, ◌≢◌, ◌+◌, ◌<◌, ◌≤◌, length, None, Some, IfOk, OnOk, MatchOption, IsTrue, ◌↔◌};
ghost use Rattle.std.specs.FinMap as map;
ghost use Rattle.model_maps.specs.Entry.{longest_meta_name};
ghost use Rattle.model_maps.specs.KeyMap.{heaviest_map};
ghost use Rattle.model_dump.specs.Adds.{start};
ghost use Rattle.dump_storage.specs.RecordView.{record_of};
ghost use Rattle.dump_storage.specs.ProgressView.{IsSound, Steps, PutsInto, CannotPut, progress_of};
ghost use Rattle.dump_storage.specs.declared.records.Kind.TheVariants as kinds;

use crate::entry_so_far::EntrySoFar;
use crate::records::{Kind, Record};
use crate::texts::meta_name_of;
use file_lines::{name_of, value_of};
use key_meta::{Memory, Text};
use key_name::KeyName;
use key_set::{HEAVIEST_MAP, KEY_WEIGHT, KeySet};
use std::alloc::Global;

/// The keys so far. The last one stands apart, so that its metadata joins it without a search.
#[derive(Drop)]
pub struct Progress {
    keys: KeySet,
    present: Option<Present>,
    /// What all keys weigh.
    weight: u64,
}

/// The key that metadata belongs to.
#[derive(Drop)]
struct Present {
    name: KeyName,
    entry: EntrySoFar,
}

impl Progress {
    /// Nothing was read.
    pub fn new(alloc: Global) -> Progress
        ensures start { progress_of result ≡ start }
        ensures sound { IsSound result }
    {
        Progress {
            keys: KeySet::new(alloc),
            present: None,
            weight: 0,
        }
    }

    /// All keys so far.
    pub fn finish(self) -> Result<KeySet, Memory>
        ensures { IfOk result (λ keys. keys ≡ (progress_of self).keys) }
    {
        let mut so_far = self;
        so_far.pass_present()?;
        Ok(so_far.keys)
    }

    /// Reads a record, if it has a reading. Else the progress stays.
    pub fn add(&mut self, alloc: Global, added: Record<'_>) -> Result<bool, Memory>
        requires { IsSound self.old }
        ensures sound { OnOk result (IsSound self.new) }
        ensures step { IfOk result (Steps self.old (record_of added.entry.kind added.entry.first.now added.entry.second.now) self.new) }
    {
        match added.kind {
            Kind::Key => self.add_key(alloc, added.first, added.second),
            Kind::Meta => self.add_meta(added.first, added.second),
            Kind::CopyMeta => self.copy_meta(alloc, added.first, added.second),
        }
    }

    /// A key without metadata, if its name is new.
    fn add_key(&mut self, alloc: Global, text: &[u8], value: &[u8]) -> Result<bool, Memory>
        requires { IsSound self.old }
        ensures sound { OnOk result (IsSound self.new) }
        ensures step { IfOk result (Steps self.old (record_of kinds.Key text.now value.now) self.new) }
    {
        let Some(name) = name_of(alloc, text)? else {
            return Ok(false);
        };
        let Some(value) = value_of(value) else {
            return Ok(false);
        };
        if self.has(&name) {
            return Ok(false);
        }
        let own = KEY_WEIGHT + name.path_bytes();
        let Some(weight) = heavier(self.weight, own, value.len()) else {
            return Ok(false);
        };
        let value = Text::new(alloc, value)?;
        let entry = EntrySoFar::new(alloc, value);
        self.pass_present()?;
        self.present = Some(Present { name, entry });
        self.weight = weight;
        Ok(true)
    }

    /// Metadata of the present key, if it hasn't any under this name.
    fn add_meta(&mut self, name: &[u8], text: &[u8]) -> Result<bool, Memory>
        requires { IsSound self.old }
        ensures sound { OnOk result (IsSound self.new) }
        ensures step { IfOk result (Steps self.old (record_of kinds.Meta name.now text.now) self.new) }
    {
        let Some(name) = meta_name_of(name) else {
            return Ok(false);
        };
        let Some(text) = value_of(text) else {
            return Ok(false);
        };
        let Some(present) = &mut self.present else {
            return Ok(false);
        };
        let Some(weight) = present.put(self.weight, name, text)? else {
            return Ok(false);
        };
        self.weight = weight;
        Ok(true)
    }

    /// Metadata of an earlier key joins the present key too, if that hasn't any under this name.
    fn copy_meta(&mut self, alloc: Global, source: &[u8], name: &[u8]) -> Result<bool, Memory>
        requires { IsSound self.old }
        ensures sound { OnOk result (IsSound self.new) }
        ensures step { IfOk result (Steps self.old (record_of kinds.CopyMeta source.now name.now) self.new) }
    {
        let Some(source) = name_of(alloc, source)? else {
            return Ok(false);
        };
        let Some(name) = meta_name_of(name) else {
            return Ok(false);
        };
        let Some(present) = &mut self.present else {
            return Ok(false);
        };
        let Some(earlier) = self.keys.lookup(&source) else {
            return Ok(false);
        };
        let Some(text) = earlier.meta.get(name) else {
            return Ok(false);
        };
        let Some(weight) = present.put(self.weight, name, text)? else {
            return Ok(false);
        };
        self.weight = weight;
        Ok(true)
    }

    /// A name is that of a key so far.
    fn has(&self, name: &KeyName) -> bool
        ensures { IsTrue result ↔ (map.get (progress_of self.now).keys name.now ≢ None) }
    {
        self.is_present(name) || self.keys.lookup(name).is_some()
    }

    /// A name is that of the present key.
    fn is_present(&self, name: &KeyName) -> bool
        ensures { IsTrue result ↔ ((progress_of self.now).present ≡ Some name.now) }
    {
        match &self.present {
            Some(present) => present.name == *name,
            None => false,
        }
    }

    /// Puts the present key among those before it.
    fn pass_present(&mut self) -> Result<(), Memory>
        ensures keys { OnOk result (self.new.keys ≡ (progress_of self.old).keys) }
        ensures present { OnOk result (self.new.present ≡ None) }
        ensures weight { OnOk result (self.new.weight ≡ self.old.weight) }
    {
        if let Some(present) = self.present.take() {
            let entry = present.entry.into_entry()?;
            self.keys.append(present.name, entry)?;
        }
        Ok(())
    }
}

impl Present {
    /// Puts a text under a metadata name, and answers what all keys weigh then. Where the name has a text, or the keys
    /// would be too heavy, there is no answer and nothing changes.
    fn put(&mut self, weight: u64, name: &str, text: &str) -> Result<Option<u64>, Memory>
        requires some { 0 < length name.now }
        requires limit { length name.now ≤ longest_meta_name }
        ensures { IfOk result (λ put. MatchOption put
            ((self.new ≡ self.old) × CannotPut self.old weight name.now text.now)
            (λ heavier. PutsInto self.old weight name.now text.now self.new heavier)) }
    {
        let Some(weight) = heavier(weight, name.len(), text.len()) else {
            return Ok(None);
        };
        if !self.entry.put_new(name, text)? {
            return Ok(None);
        }
        Ok(Some(weight))
    }
}

/// A weight with two more numbers of bytes, if a map may weigh that.
fn heavier(weight: u64, first: usize, second: usize) -> Option<u64>
    ensures { MatchOption result
        (heaviest_map < weight + first + second)
        (λ sum. (sum ≡ weight + first + second) × (sum ≤ heaviest_map)) }
{
    let sum = weight
        .checked_add(first as u64)?
        .checked_add(second as u64)?;
    if sum > HEAVIEST_MAP {
        return None;
    }
    Some(sum)
}
