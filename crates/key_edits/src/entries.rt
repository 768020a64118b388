//! Edits of what a key holds.
ghost use Rattle.std.specs.Prelude.{◌≡◌, ◌<◌, ◌≤◌, [], IfOk, length};
ghost use Rattle.std.specs.Option.{option_map};
ghost use Rattle.key_edits.specs.Edits.{with_text, with_value};
ghost use Rattle.key_set.specs.EntryView.{entry_of};
ghost use Rattle.model_maps.specs.Entry.{longest_meta_name, plain_entry, with_meta};

use key_meta::{Memory, Meta, Text};
use key_set::Entry;
use std::alloc::Global;

/// An entry with another value. A missing one had no metadata.
pub(crate) fn with_value(
    alloc: Global,
    former: Option<&Entry>,
    value: &str,
) -> Result<Entry, Memory>
    ensures { IfOk result (λ made. entry_of made ≡ with_value (option_map (λ entry. entry_of entry.now) former.entry) value.now) }
{
    match former {
        Some(entry) => Ok(Entry {
            value: Text::new(alloc, value)?,
            meta: entry.meta.copy()?,
        }),
        None => Ok(Entry {
            value: Text::new(alloc, value)?,
            meta: Meta::new(alloc),
        }),
    }
}

/// An entry with one more metadata text. A missing one gets the empty value.
pub(crate) fn with_text(
    alloc: Global,
    former: Option<&Entry>,
    meta: &str,
    text: &str,
) -> Result<Entry, Memory>
    requires some { 0 < length meta.now }
    requires limit { length meta.now ≤ longest_meta_name }
    ensures { IfOk result (λ made. entry_of made ≡ with_text (option_map (λ entry. entry_of entry.now) former.entry) meta.now text.now) }
{
    match former {
        Some(entry) => set_text(entry.copy()?, meta, text),
        None => set_text(empty_entry(alloc)?, meta, text),
    }
}

/// An entry with the empty value and no metadata.
fn empty_entry(alloc: Global) -> Result<Entry, Memory>
    ensures { IfOk result (λ made. entry_of made ≡ plain_entry []) }
{
    Ok(Entry {
        value: Text::new(alloc, "")?,
        meta: Meta::new(alloc),
    })
}

/// Sets a metadata text of an entry.
fn set_text(entry: Entry, meta: &str, text: &str) -> Result<Entry, Memory>
    requires some { 0 < length meta.now }
    requires limit { length meta.now ≤ longest_meta_name }
    ensures { IfOk result (λ made. entry_of made ≡ with_meta (entry_of entry) meta.now text.now) }
{
    let mut entry = entry;
    let _ = entry.meta.set(meta, text)?;
    Ok(entry)
}
