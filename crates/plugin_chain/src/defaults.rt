//! The keys of `default:` that specifications make.
ghost use Rattle.std.specs.Prelude.{◌≡◌, IfOk, OnOk};
ghost use Rattle.key_set.specs.EntryView.{entry_of};
ghost use Rattle.key_set.specs.WithAll.{with_keys};
ghost use Rattle.model_specified.specs.Specified.{default_of, with_defaults};

use key_meta::{Memory, Meta, Text};
use key_name::{KeyName, Namespace};
use key_set::{Entry, KeySet};

/// The keys with the defaults that the keys of `spec:` make, each in place of a key that was there. Where there is
/// none, the two sets share all keys.
pub fn with_defaults(specs: &KeySet, keys: &KeySet) -> Result<KeySet, Memory>
    ensures { IfOk result (λ made. made ≡ with_defaults specs.now keys.now) }
{
    let mut made = keys.copy()?;
    for (name, entry) in specs.iter() {
        add_default(&mut made, name, entry)?;
    }
    Ok(made)
}

/// Adds the default that a key of `spec:` makes.
fn add_default(keys: &mut KeySet, name: &KeyName, entry: &Entry) -> Result<(), Memory>
    ensures ok { OnOk result (keys.new ≡ with_keys (default_of (name.now, entry_of entry.now)) keys.old) }
{
    if name.has_glob() {
        return Ok(());
    }
    let Some(text) = entry.meta.get("default") else {
        return Ok(());
    };
    let alloc = keys.allocator();
    let value = Text::new(alloc, text)?;
    let default = Entry {
        value,
        meta: Meta::new(alloc),
    };
    keys.append(name.with_namespace(Namespace::Default)?, default)?;
    Ok(())
}
