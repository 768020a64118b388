//! Metadata of a key: a finite map from names to texts, walked by bytes.
ghost use Rattle.std.specs.Prelude.{◌≡◌, ◌==◌, ◌+◌, ◌^◌, ◌<◌, ◌≤◌, T, length, IfOk, IfErr, OnOk, OnErr, sum_by};
ghost use Rattle.std.specs.Option.{option_map};
ghost use Rattle.std.specs.FinMap as map;
ghost use Rattle.std.specs.FinMap.{is_sorted};
ghost use Rattle.general_words.specs.Saturated.{saturated};
ghost use Rattle.general_words.specs.Texts.{text_cmp};
ghost use Rattle.model_maps.specs.Entry.{array_texts, longest_meta_name, meta_bytes};
ghost use Rattle.sorted_map.specs.Place.{IsPlace, IsGap};
ghost use Rattle.std.specs.Cmp.{partial_equiv_from_equiv};
ghost use Rattle.key_meta.specs.MetaView.{AreItems, AreTexts};
ghost use Rattle.key_meta.specs.Same.{same_meta, same_meta_equiv};

use crate::item_names::item_name;
use crate::iters::MetaIter;
use crate::{List, Memory, Text};
use sorted_map::SortedMap;
use std::alloc::{AllocError, Global};
use std::cmp::Ordering;
use std::marker::Model;

/// A text for each of some names, in the order of the names' bytes.
#[derive(Drop)]
pub struct Meta {
    items: SortedMap<Text, Text>,
}

impl Model for Meta {
    ghost use Rattle.std.specs.FinMap as finite;
    ghost use Rattle.model_maps.specs.Entry.{Meta, coded_meta};

    ghost Value = { Meta };

    ghost coded = { coded_meta };

    ghost use Rattle.key_meta.specs.MetaView.{AreItems as AreAll};

    ghost view = { λ m. finite.from_sorted m.items };

    ghost invariant = { λ m. AreAll m.items };
}

impl Meta {
    pub fn new(alloc: Global) -> Meta
        ensures { result ≡ map.empty }
    {
        Meta {
            items: SortedMap::new(alloc),
        }
    }

    /// How many names have a text.
    pub fn len(&self) -> usize
        ensures { result ≡ length (map.entries self.now) }
    {
        self.items.len()
    }

    /// Whether no name has a text.
    pub fn is_empty(&self) -> bool
        ensures empty { result ≡ (length (map.entries self.now) == 0) }
        ensures texts { AreTexts self.now }
    {
        self.items.entries().is_empty()
    }

    /// The names and their texts, in the order of the names.
    pub fn iter(&self) -> MetaIter<'_>
        ensures all { result ≡ map.entries self.now }
        ensures items { AreItems (map.entries self.now) }
    {
        MetaIter {
            rest: self.items.entries(),
        }
    }

    /// The text of a name.
    pub fn get(&self, name: &str) -> Option<&str>
        ensures { option_map (λ text. text.now) result ≡ map.get self.now name.now }
    {
        let items = self.items.entries();
        match place(items, name) {
            Ok(at) => Some(items[at].1.as_str()),
            Err(_) => None,
        }
    }

    /// Gives a name a text, and answers the text that it had. A name has 1 to `LONGEST_META_NAME` bytes.
    pub fn set(&mut self, name: &str, text: &str) -> Result<Option<Text>, Memory>
        requires some { 0 < length name.now }
        requires limit { length name.now ≤ longest_meta_name }
        ensures former { IfOk result (λ former. former ≡ map.get self.old name.now) }
        ensures ok { OnOk result (self.new ≡ map.insert self.old name.now text.now) }
        ensures err { OnErr result (self.new ≡ self.old) }
    {
        let alloc = self.items.allocator();
        match place(self.items.entries(), name) {
            Ok(at) => {
                let text = Text::new(alloc, text)?;
                Ok(Some(self.items.replace_at(at, text)))
            }
            Err(_) => {
                let name = Text::new(alloc, name)?;
                let text = Text::new(alloc, text)?;
                self.items.insert(name, text)
            }
        }
    }

    /// Takes a name out, and answers the text that it had.
    pub fn remove(&mut self, name: &str) -> Option<Text>
        ensures former { result ≡ map.get self.old name.now }
        ensures removed { self.new ≡ map.remove self.old name.now }
    {
        match place(self.items.entries(), name) {
            Ok(at) => Some(self.items.remove_at(at).1),
            Err(_) => None,
        }
    }

    /// The texts of an array, which ends at the first place that is missing.
    pub fn array(&self, prefix: &str) -> Result<List<Text>, Memory>
        ensures texts { IfOk result (λ texts. texts ≡ array_texts self.now prefix.now) }
        ensures count { IfOk result (λ texts. length texts < 2 ^ 64) }
    {
        let alloc = self.items.allocator();
        let mut texts = Vec::new(alloc);
        for index in 0..usize::MAX {
            let name = item_name(alloc, prefix, index)?;
            match self.get(&name) {
                Some(text) => texts.push(Text::new(alloc, text)?)?,
                None => return Ok(List::from_vec(texts)),
            }
        }
        // There is no memory for so many texts, so this is never reached.
        Err(AllocError)
    }

    /// How many bytes its names and texts have. A number beyond the type's end is given as its last value.
    pub fn bytes(&self) -> u64
        ensures { result ≡ saturated (meta_bytes self.now) }
    {
        bytes_of(self.items.entries())
    }

    /// The copy stands on the same allocator.
    pub fn copy(&self) -> Result<Meta, Memory>
        ensures copied { IfOk result (λ copied. copied ≡ self.now) }
        ensures texts { AreTexts self.now }
    {
        let items = copy_of(self.items.allocator(), self.items.entries())?;
        Ok(Meta {
            items: SortedMap::from_sorted(items),
        })
    }
}

impl PartialEq for Meta {
    ghost eq = { same_meta };

    ghost laws = { partial_equiv_from_equiv same_meta_equiv };

    fn eq(&self, other: &Meta) -> bool {
        self.items.entries() == other.items.entries()
    }
}

impl Eq for Meta {
    ghost laws = { same_meta_equiv };
}

/// Where a name stands, or would stand.
fn place(items: &[(Text, Text)], name: &str) -> Result<usize, usize>
    requires { T (is_sorted text_cmp items.now) }
    ensures there { IfOk result (λ at. IsPlace text_cmp items.now name.now at) }
    ensures missing { IfErr result (λ at. IsGap text_cmp items.now name.now at) }
{
    items.binary_search_by(
        |item: &(Text, Text)| -> Ordering
            ensures { result ≡ text_cmp item.now.0 name.entry.now }
        { item.0.as_str().cmp(name) },
    )
}

/// The same items again.
fn copy_of(alloc: Global, items: &[(Text, Text)]) -> Result<Vec<(Text, Text)>, Memory>
    ensures { IfOk result (λ copied. copied.items ≡ items.now) }
{
    let mut copied = Vec::with_capacity(alloc, items.len())?;
    for item in items {
        copied.push((item.0.copy()?, item.1.copy()?))?;
    }
    Ok(copied)
}

/// How many bytes the names and the texts of some items have.
fn bytes_of(items: &[(Text, Text)]) -> u64
    ensures { result ≡ saturated (sum_by (λ item. length item.0 + length item.1) items.now) }
{
    let mut bytes: u64 = 0;
    for item in items {
        let name = item.0.as_str().len() as u64;
        let text = item.1.as_str().len() as u64;
        bytes = bytes.saturating_add(name + text);
    }
    bytes
}
