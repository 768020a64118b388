//! Edits of one key of a set.
ghost use Rattle.std.specs.Prelude.{◌≡◌, ◌<◌, ◌≤◌, OnErr, OnOk, length};
ghost use Rattle.key_edits.specs.Edits.{put_meta, put_value};
ghost use Rattle.model_maps.specs.Entry.{longest_meta_name};

use crate::entries::{with_text, with_value};
use key_meta::Memory;
use key_name::KeyName;
use key_set::KeySet;
use std::alloc::Global;

/// A key gets a value and keeps its metadata. A missing key had none.
pub fn put_value(
    alloc: Global,
    keys: &mut KeySet,
    name: &KeyName,
    value: &str,
) -> Result<(), Memory>
    ensures ok { OnOk result (keys.new ≡ put_value keys.old name.now value.now) }
    ensures err { OnErr result (keys.new ≡ keys.old) }
{
    let entry = with_value(alloc, keys.lookup(name), value)?;
    let _ = keys.append(name.copy()?, entry)?;
    Ok(())
}

/// A key gets a metadata text and keeps its value. A missing key is made with the empty value. A metadata name has 1 to
/// `LONGEST_META_NAME` bytes.
pub fn put_meta(
    alloc: Global,
    keys: &mut KeySet,
    name: &KeyName,
    meta: &str,
    text: &str,
) -> Result<(), Memory>
    requires some { 0 < length meta.now }
    requires limit { length meta.now ≤ longest_meta_name }
    ensures ok { OnOk result (keys.new ≡ put_meta keys.old name.now meta.now text.now) }
    ensures err { OnErr result (keys.new ≡ keys.old) }
{
    let entry = with_text(alloc, keys.lookup(name), meta, text)?;
    let _ = keys.append(name.copy()?, entry)?;
    Ok(())
}
