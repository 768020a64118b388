//! The steps that ask no store: edits of the working set, and what is looked up in it.
ghost use Rattle.std.specs.Prelude.{◌≡◌};
ghost use Rattle.std.specs.FinMap as map;
ghost use Rattle.key_edits.specs.Edits.{put_meta, put_value};
ghost use Rattle.model_batch.specs.Replies.{look_reply};
ghost use Rattle.model_maps.specs.KeyMap.{not_below};
ghost use Rattle.model_specified.specs.Specified.{specified};
ghost use Rattle.batch_run.specs.Stepping.{IsEdit, IsLook};
ghost use Rattle.spec_cascade.specs.Found.{found};

use batch_script::MetaWord;
use kdb_handle::Reply;
use key_edits::{put_meta, put_value};
use key_meta::Text;
use key_name::KeyName;
use key_set::KeySet;
use spec_cascade::{Found, lookup_specified};
use std::alloc::Global;

/// A key gets a value, and keeps its metadata.
pub(crate) fn put(alloc: Global, name: &KeyName, value: &Text, working: &mut KeySet) -> Reply
    ensures { IsEdit (put_value working.old name.now value.now) working.old working.new result }
{
    match put_value(alloc, working, name, value.as_str()) {
        Ok(()) => Reply::Quiet,
        Err(_) => Reply::Memory,
    }
}

/// A key gets a metadata text. A missing key is made with the empty value.
pub(crate) fn set_meta(
    alloc: Global,
    name: &KeyName,
    meta: &MetaWord,
    value: &Text,
    working: &mut KeySet,
) -> Reply
    ensures { IsEdit (put_meta working.old name.now meta.now value.now) working.old working.new result }
{
    match put_meta(alloc, working, name, meta.as_str(), value.as_str()) {
        Ok(()) => Reply::Quiet,
        Err(_) => Reply::Memory,
    }
}

/// A key is taken out.
pub(crate) fn delete(name: &KeyName, working: &mut KeySet) -> Reply
    ensures { IsEdit (map.remove working.old name.now) working.old working.new result }
{
    match working.remove(name) {
        Ok(_) => Reply::Quiet,
        Err(_) => Reply::Memory,
    }
}

/// A key and all below it are taken out.
pub(crate) fn cut(name: &KeyName, working: &mut KeySet) -> Reply
    ensures { IsEdit (not_below name.now working.old) working.old working.new result }
{
    match working.cut(name) {
        Ok(_) => Reply::Quiet,
        Err(_) => Reply::Memory,
    }
}

/// A name is looked up in what the working set comes to under its specifications.
pub(crate) fn look(name: &KeyName, working: &KeySet) -> Reply
    ensures { IsLook (found (specified working.now) name.now) result }
{
    match lookup_specified(working, name) {
        Ok(found) => look_reply(found),
        Err(_) => Reply::Memory,
    }
}

/// The name and the value of what was found.
fn look_reply(found: Option<Found>) -> Reply
    ensures { result ≡ look_reply found }
{
    match found {
        Some(Found { name, value, .. }) => Reply::LookFound { name, value },
        None => Reply::LookNone,
    }
}
