//! Writes a map as its text.
ghost use Rattle.std.specs.Prelude.{◌≡◌, ◌++◌, IfOk, IfErr, OnOk, map as over};
ghost use Rattle.std.specs.FinMap as map;
ghost use Rattle.std.specs.List.{flat_map};
ghost use Rattle.model_dump.specs.Record.{spelled_record};
ghost use Rattle.model_dump.specs.Text.{record_of_meta, records_of_key, text};
ghost use Rattle.key_set.specs.EntryView.{entry_of};
ghost use Rattle.storage_api.specs.declared.refusals.WriteRefusal.TheVariants as refusals;

use crate::records::{Kind, Record, push_key_record, push_record};
use key_meta::{Memory, Meta};
use key_name::KeyName;
use key_set::{Entry, KeySet};
use std::alloc::Global;
use storage_api::WriteRefusal;

/// The text of a map. Every map has one; there may only be no memory for it.
pub fn write(alloc: Global, keys: &KeySet) -> Result<Vec<u8>, WriteRefusal>
    ensures text { IfOk result (λ bytes. bytes.items ≡ text keys.now) }
    ensures refusal { IfErr result (λ refusal. refusal ≡ refusals.Memory) }
{
    Ok(text_of(alloc, keys)?)
}

fn text_of(alloc: Global, keys: &KeySet) -> Result<Vec<u8>, Memory>
    ensures { IfOk result (λ bytes. bytes.items ≡ text keys.now) }
{
    let mut bytes = Vec::from_slice(alloc, b"kdbOpen 2\n")?;
    push_keys(&mut bytes, keys)?;
    bytes.extend_from_slice(b"$end\n")?;
    Ok(bytes)
}

/// Appends the records of all keys in name order.
fn push_keys(bytes: &mut Vec<u8>, keys: &KeySet) -> Result<(), Memory>
    ensures { OnOk result (bytes.new.items ≡ bytes.old.items ++ flat_map (λ key. flat_map spelled_record (records_of_key key)) (map.entries keys.now)) }
{
    for (name, entry) in keys.iter() {
        push_key(bytes, name, entry)?;
    }
    Ok(())
}

/// Appends a key with its value, and then its metadata.
fn push_key(bytes: &mut Vec<u8>, name: &KeyName, entry: &Entry) -> Result<(), Memory>
    ensures { OnOk result (bytes.new.items ≡ bytes.old.items ++ flat_map spelled_record (records_of_key (name.now, entry_of entry.now))) }
{
    push_key_record(bytes, name, entry.value.as_str().as_bytes())?;
    push_metadata(bytes, &entry.meta)
}

/// Appends metadata by names in order.
fn push_metadata(bytes: &mut Vec<u8>, meta: &Meta) -> Result<(), Memory>
    ensures { OnOk result (bytes.new.items ≡ bytes.old.items ++ flat_map (λ item. spelled_record (record_of_meta item)) (map.entries meta.now)) }
{
    for (name, text) in meta.iter() {
        let item = Record {
            kind: Kind::Meta,
            first: name.as_bytes(),
            second: text.as_bytes(),
        };
        push_record(bytes, item)?;
    }
    Ok(())
}
