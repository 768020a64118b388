//! The commands that change the mount table.
ghost use Rattle.std.specs.Prelude.{◌≡◌, [], IfOk};
ghost use Rattle.model_names.specs.Spelling.{spelling};
ghost use Rattle.mount_table.specs.Changing.{added, removed};
ghost use Rattle.tool_commands.specs.Step.{TellsEnd};
ghost use Rattle.tool_commands.specs.StepView.{seen_step};
ghost use Rattle.tool_commands.specs.Commands.Mounting.{mounted};

use crate::steps::{Step, refuse_table, set_silently};
use kdb_outside::Kind;
use key_meta::Memory;
use key_name::KeyName;
use key_set::KeySet;
use mount_table::{add, remove as remove_entry};
use std::alloc::Global;

/// `mount`: the table gets an entry of this mountpoint, whose conflicts are counted by key or not.
pub fn mount(
    alloc: Global,
    name: &KeyName,
    file: &str,
    kind: Kind,
    by_key: bool,
    keys: KeySet,
) -> Result<Step, Memory>
    ensures step { IfOk result (λ step. seen_step step ≡ mounted (added keys (spelling name.now) file.now kind by_key)) }
    ensures status { IfOk result (λ step. TellsEnd ([]) (seen_step step)) }
{
    let mut keys = keys;
    match add(alloc, &mut keys, name, file, kind, by_key) {
        Ok(()) => Ok(set_silently(alloc, keys)),
        Err(fault) => refuse_table(alloc, fault),
    }
}

/// `umount`: the entry of this mountpoint goes.
pub fn unmount(alloc: Global, name: &KeyName, keys: KeySet) -> Result<Step, Memory>
    ensures step { IfOk result (λ step. seen_step step ≡ mounted (removed keys (spelling name.now))) }
    ensures status { IfOk result (λ step. TellsEnd ([]) (seen_step step)) }
{
    let mut keys = keys;
    match remove_entry(alloc, &mut keys, name) {
        Ok(()) => Ok(set_silently(alloc, keys)),
        Err(fault) => refuse_table(alloc, fault),
    }
}
