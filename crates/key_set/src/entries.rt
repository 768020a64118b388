//! What a key holds.
ghost use Rattle.std.specs.Prelude.{◌≡◌, IfOk, OnOk};
ghost use Rattle.std.specs.Cmp.{partial_equiv_from_equiv, on_equiv};
ghost use Rattle.std.specs.Str.{IsUtf8};
ghost use Rattle.key_meta.specs.MetaView.{AreTexts};
ghost use Rattle.key_set.specs.EntryView.{entry_of};
ghost use Rattle.key_set.specs.Same.{same_entry, same_entry_equiv};

use chunked_map::Copied;
use key_meta::{Memory, Meta, Text};
use key_name::KeyName;

/// A value, and metadata by name.
#[derive(Drop)]
pub struct Entry {
    pub value: Text,
    pub meta: Meta,
}

impl Entry {
    /// The same value and metadata again, in memory of its own.
    pub fn copy(&self) -> Result<Entry, Memory>
        ensures copied { IfOk result (λ copied. copied ≡ self.now) }
        ensures value { OnOk result (IsUtf8 self.now.value) }
        ensures texts { OnOk result (AreTexts self.now.meta) }
    {
        Ok(Entry {
            value: self.value.copy()?,
            meta: self.meta.copy()?,
        })
    }
}

impl Copied<KeyName> for Entry {
    fn copied(name: &KeyName, entry: &Entry) -> Result<(KeyName, Entry), Memory> {
        Ok((name.copy()?, entry.copy()?))
    }
}

impl PartialEq for Entry {
    ghost eq = { λ x y. same_entry (entry_of x) (entry_of y) };

    ghost laws = { partial_equiv_from_equiv (on_equiv entry_of same_entry_equiv) };

    fn eq(&self, other: &Entry) -> bool {
        self.value == other.value && self.meta == other.meta
    }
}

impl Eq for Entry {
    ghost laws = { on_equiv entry_of same_entry_equiv };
}
