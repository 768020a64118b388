//! The entry of a host: its address and its comments.
ghost use Rattle.std.specs.Prelude.{◌≡◌, ◌<◌, ◌≤◌, ◌==◌, length, IfOk, MatchOption};
ghost use Rattle.std.specs.Bool.{Decides};
ghost use Rattle.std.specs.List.{AllByRecursion, list_any};
ghost use Rattle.std.specs.Option.{option_map};
ghost use Rattle.model_names.specs.ArrayPart.{last_index};
ghost use Rattle.model_maps.specs.Entry.{IsValue};
ghost use Rattle.model_hosts.specs.Hosts.{with_own as texts_with_own, host_entry as entry_of_host};
ghost use Rattle.key_set.specs.EntryView.{entry_of};

use crate::comments::metadata;
use file_lines::value_of;
use key_meta::{LONGEST_VALUE, Memory, Text};
use key_set::Entry;
use std::alloc::Global;

/// The entry of an address and comments; none where the address is too long or has a NUL.
pub fn host_entry(alloc: Global, address: &[u8], texts: Vec<Text>) -> Result<Option<Entry>, Memory>
    ensures { IfOk result (λ found. MatchOption found
        (IsValue address.now × AllByRecursion (λ b. 0 < b) address.now → ⊥)
        (λ entry. (entry_of entry ≡ entry_of_host address.now texts.items) × IsValue address.now × AllByRecursion (λ b. 0 < b) address.now)) }
{
    let Some(value) = value_of(address) else {
        return Ok(None);
    };
    if has_nul(address) {
        return Ok(None);
    }
    Ok(Some(Entry {
        value: Text::new(alloc, value)?,
        meta: metadata(alloc, texts)?,
    }))
}

/// The comments that waited, and behind them the entry's own; none where one is too long.
pub fn with_own(
    alloc: Global,
    waiting: Vec<Text>,
    own: Option<&[u8]>,
) -> Result<Option<Vec<Text>>, Memory>
    ensures { IfOk result (λ found. MatchOption found
        (AllByRecursion IsValue (texts_with_own waiting.items (option_map (λ comment. comment.now) own.entry)) → ⊥)
        (λ texts. (texts.items ≡ texts_with_own waiting.items (option_map (λ comment. comment.now) own.entry)) × AllByRecursion IsValue texts.items × (length texts.items ≤ last_index))) }
{
    let Some(own) = own else {
        return Ok(if_values(waiting));
    };
    let Some(own) = value_of(own) else {
        return Ok(None);
    };
    let mut texts = waiting;
    texts.push(Text::new(alloc, own)?)?;
    Ok(if_values(texts))
}

/// The texts, if none is too long.
fn if_values(texts: Vec<Text>) -> Option<Vec<Text>>
    ensures { MatchOption result
        (AllByRecursion IsValue texts.items → ⊥)
        (λ same. (same.items ≡ texts.items) × AllByRecursion IsValue texts.items × (length texts.items ≤ last_index)) }
{
    if are_values(&texts) {
        Some(texts)
    } else {
        None
    }
}

/// Whether no text is too long.
fn are_values(texts: &[Text]) -> bool
    ensures { Decides result (AllByRecursion IsValue texts.now) }
{
    for text in texts {
        if text.as_str().len() > LONGEST_VALUE {
            return false;
        }
    }
    true
}

/// Whether a NUL stands among bytes.
fn has_nul(bytes: &[u8]) -> bool
    ensures { result ≡ list_any (λ b. b == 0) bytes.now }
{
    bytes.iter().any(|byte| *byte == 0)
}
