//! Which keys a hosts file can hold.
ghost use Rattle.std.specs.Prelude.{◌≡◌, ◌==◌, [], Some, IfOk};
ghost use Rattle.std.specs.FinMap as map;
ghost use Rattle.std.specs.Bool.{Decides};
ghost use Rattle.std.specs.List.{AllByRecursion};
ghost use Rattle.model_names.specs.declared.namespaces.Namespace.TheVariants.{Cascading};
ghost use Rattle.model_maps.specs.Entry as model;
ghost use Rattle.model_maps.specs.Entry.{plain_entry};
ghost use Rattle.model_hosts.specs.Keys.{family, host_name as name_of_host, IsHostsKey, IsWordByte, IsWord, IsOneLine};
ghost use Rattle.key_set.specs.EntryView.{entry_of};
ghost use Rattle.hosts_storage.specs.Holding.{HasComments, IsHost, IsAlias};

use crate::comments::{metadata, texts_of};
use crate::names::family_of;
use key_meta::{Memory, Meta, Text};
use key_name::{KeyName, Namespace};
use key_set::{Entry, KeySet};
use std::alloc::{AllocError, Global};

/// Whether a key of a map is a host's or an alias's.
pub fn is_hosts_key(
    alloc: Global,
    keys: &KeySet,
    name: &KeyName,
    entry: &Entry,
) -> Result<bool, Memory>
    ensures { IfOk result (λ is. Decides is (IsHostsKey keys.now name.now (entry_of entry.now))) }
{
    if name.namespace() != Namespace::Cascading {
        return Ok(false);
    }
    match (name.len(), name.part(0), name.part(1), name.part(2)) {
        (2, Some(of_family), Some(host), None) => {
            let is = is_host(alloc, of_family, host, entry)?;
            Ok(is)
        }
        (3, Some(of_family), Some(host), Some(alias)) => {
            let is = is_alias(alloc, keys, of_family, host, alias, entry)?;
            Ok(is)
        }
        _ => Ok(false),
    }
}

/// Whether a family and a host with an entry are a host's key.
fn is_host(alloc: Global, of_family: &str, host: &str, entry: &Entry) -> Result<bool, Memory>
    ensures { IfOk result (λ is. Decides is (IsHost of_family.now host.now (entry_of entry.now))) }
{
    let address = entry.value.as_str();
    if of_family != family_of(address.as_bytes()) {
        return Ok(false);
    }
    if !is_word(address.as_bytes()) || !is_word(host.as_bytes()) {
        return Ok(false);
    }
    are_comments(alloc, &entry.meta)
}

/// Whether metadata are just an array of comments that stand on one line each.
fn are_comments(alloc: Global, meta: &Meta) -> Result<bool, Memory>
    ensures { IfOk result (λ are. Decides are (HasComments meta.now)) }
{
    let texts = texts_of(meta)?;
    if !are_lines(&texts) {
        return Ok(false);
    }
    let made = metadata(alloc, texts)?;
    Ok(made == *meta)
}

/// Whether an alias of a host that is there has its key.
fn is_alias(
    alloc: Global,
    keys: &KeySet,
    of_family: &str,
    host: &str,
    alias: &str,
    entry: &Entry,
) -> Result<bool, Memory>
    ensures { IfOk result (λ is. Decides is (IsAlias keys.now of_family.now host.now alias.now (entry_of entry.now))) }
{
    if !is_plain_alias(alias, entry) {
        return Ok(false);
    }
    let is_there = has_host(alloc, keys, of_family, host)?;
    Ok(is_there)
}

/// Whether an alias is a word, and its entry holds nothing.
fn is_plain_alias(alias: &str, entry: &Entry) -> bool
    ensures { Decides result (IsWord alias.now × (entry_of entry.now ≡ plain_entry [])) }
{
    is_word(alias.as_bytes()) && is_nothing(entry)
}

/// Whether an entry holds nothing.
fn is_nothing(entry: &Entry) -> bool
    ensures { Decides result (entry_of entry.now ≡ plain_entry []) }
{
    entry.value.as_str().is_empty() && entry.meta.is_empty()
}

/// Whether a host is there.
fn has_host(alloc: Global, keys: &KeySet, of_family: &str, host: &str) -> Result<bool, Memory>
    ensures { IfOk result (λ is. Decides is ((found : model.Entry) × (map.get keys.now (name_of_host of_family.now host.now) ≡ Some found))) }
{
    let above = host_name(alloc, of_family, host)?;
    Ok(keys.lookup(&above).is_some())
}

/// The name of a host, of which both parts are those of a name.
fn host_name(alloc: Global, of_family: &str, host: &str) -> Result<KeyName, Memory>
    ensures { IfOk result (λ name. name ≡ name_of_host of_family.now host.now) }
{
    let root = KeyName::root(alloc, Namespace::Cascading);
    let Ok(family) = root.child(of_family) else {
        return Err(AllocError);
    };
    family.child(host).map_err(|_| AllocError)
}

/// Whether each of some texts stands on one line.
fn are_lines(texts: &[Text]) -> bool
    ensures { Decides result (AllByRecursion IsOneLine texts.now) }
{
    for text in texts {
        if !is_line(text.as_str().as_bytes()) {
            return false;
        }
    }
    true
}

/// Whether bytes have neither a line feed nor a carriage return.
fn is_line(bytes: &[u8]) -> bool
    ensures { Decides result (IsOneLine bytes.now) }
{
    for byte in bytes {
        if *byte == b'\n' || *byte == b'\r' {
            return false;
        }
    }
    true
}

/// Whether bytes can stand as a word.
fn is_word(bytes: &[u8]) -> bool
    ensures { Decides result (IsWord bytes.now) }
{
    !bytes.is_empty() && are_word_bytes(bytes)
}

/// Whether each of some bytes can stand in a word.
fn are_word_bytes(bytes: &[u8]) -> bool
    ensures { Decides result (AllByRecursion IsWordByte bytes.now) }
{
    for byte in bytes {
        if !is_word_byte(*byte) {
            return false;
        }
    }
    true
}

/// Whether a byte can stand in a word.
fn is_word_byte(byte: u8) -> bool
    ensures { Decides result (IsWordByte byte) }
{
    !matches!(byte, 0 | b'\t' | b'\n' | b'\r' | b' ' | b'#')
}
