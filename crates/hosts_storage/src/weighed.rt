//! Keys with what they weigh, and the aliases of a host among them.
ghost use Rattle.std.specs.Prelude.{◌≡◌, ◌≢◌, [], IfOk, OnOk, None, Some, length};
ghost use Rattle.std.specs.FinMap as map;
ghost use Rattle.model_maps.specs.Entry.{plain_entry};
ghost use Rattle.model_hosts.specs.Line.{words};
ghost use Rattle.key_set.specs.EntryView.{entry_of};
ghost use Rattle.hosts_storage.specs.WeighedView.{IsWeighed, IsPlainAlias, AddsAliases};

use crate::names::child;
use crate::words::first_word;
use key_meta::{Memory, Meta, Text};
use key_name::KeyName;
use key_set::{Entry, KeySet, weight_of_key};
use std::alloc::Global;

/// Keys, and what they weigh. A weight beyond the type's end is kept as its last value.
#[derive(Drop)]
pub struct Weighed {
    pub keys: KeySet,
    pub weight: u64,
}

/// Gives a name an entry, which it may have already.
pub fn put(found: &mut Weighed, name: KeyName, entry: Entry) -> Result<(), Memory>
    requires sound { IsWeighed found.old }
    requires plain { IsPlainAlias name (entry_of entry) }
    requires same { map.get found.old.keys name ≢ None → map.get found.old.keys name ≡ Some (entry_of entry) }
    ensures ok { OnOk result (found.new.keys ≡ map.insert found.old.keys name (entry_of entry)) }
    ensures sound { OnOk result (IsWeighed found.new) }
{
    let own = weight_of_key(&name, &entry);
    if found.keys.append(name, entry)?.is_none() {
        found.weight = found.weight.saturating_add(own);
    }
    Ok(())
}

/// Adds the words as aliases of a host, if all their names are names. An alias that is there already stays as it is.
pub fn add_aliases(
    found: &mut Weighed,
    alloc: Global,
    host: &KeyName,
    aliases: &[u8],
) -> Result<bool, Memory>
    requires sound { IsWeighed found.old }
    requires two { length host.now.parts ≡ 2 }
    ensures { IfOk result (AddsAliases found.old.keys host.now (words aliases.now) found.new) }
{
    let mut left = aliases;
    while let Some((alias, behind)) = first_word(left) {
        let Some(name) = child(host, alias)? else {
            return Ok(false);
        };
        put(found, name, nothing(alloc)?)?;
        left = behind;
    }
    Ok(true)
}

/// The entry of an alias.
fn nothing(alloc: Global) -> Result<Entry, Memory>
    ensures { IfOk result (λ entry. entry_of entry ≡ plain_entry []) }
{
    Ok(Entry {
        value: Text::new(alloc, "")?,
        meta: Meta::new(alloc),
    })
}
