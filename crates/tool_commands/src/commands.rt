//! What each command makes of the keys that it got.
ghost use Rattle.std.specs.Prelude.{◌≡◌, IfOk};
ghost use Rattle.tool_commands.specs.Step.{TellsEnd};
ghost use Rattle.tool_commands.specs.StepView.{seen_step};
ghost use Rattle.tool_commands.specs.Commands.{parent_of, row_of, step_of};
ghost use Rattle.tool_words.specs.RequestView.{action_of};

mod looking;
mod merging;
mod metadata;
mod mounting;
mod trees;
mod values;

use crate::commands::looking::look_up;
use crate::commands::merging::merge;
use crate::commands::metadata::{get_meta, list_meta, set_meta};
use crate::commands::mounting::{mount, unmount};
use crate::commands::trees::{bring, list, remove, replace};
use crate::commands::values::{get, set};
use crate::places::every_key;
use crate::steps::Step;
use key_meta::Memory;
use key_name::KeyName;
use key_set::KeySet;
use mount_table::own_point;
use std::alloc::Global;
use tool_words::Action;

/// The parent whose keys a command gets, and sets where it sets any.
pub fn parent_of(alloc: Global, name: &KeyName, action: &Action<'_>) -> Result<KeyName, Memory>
    ensures { IfOk result (λ parent. parent ≡ parent_of name.now (action_of action.now)) }
{
    match action {
        Action::Set(_)
        | Action::Remove(_)
        | Action::Names
        | Action::SetMeta(_, _)
        | Action::Replace(_) => name.copy(),
        Action::Get
        | Action::GetMeta(_)
        | Action::MetaNames
        | Action::Bring { .. }
        | Action::Merge { .. } => Ok(every_key(alloc)),
        Action::MountFile { .. } | Action::Unmount => own_point(alloc),
    }
}

/// What an action on a key makes of the keys that it got.
pub fn step(alloc: Global, name: &KeyName, action: Action<'_>, keys: KeySet) -> Result<Step, Memory>
    ensures step { IfOk result (λ step. seen_step step ≡ step_of keys name.now (action_of action.entry)) }
    ensures status { IfOk result (λ step. TellsEnd (row_of name.now (action_of action.entry)).statuses (seen_step step)) }
{
    match action {
        Action::Get => get(alloc, name, look_up(name, &keys)?),
        Action::Set(value) => set(alloc, name, value, keys),
        Action::Remove(extent) => remove(alloc, name, extent, keys),
        Action::Names => list(alloc, name, &keys),
        Action::GetMeta(meta) => get_meta(alloc, name, meta.as_str(), look_up(name, &keys)?),
        Action::SetMeta(meta, text) => set_meta(alloc, name, &meta, text, keys),
        Action::MetaNames => list_meta(alloc, name, look_up(name, &keys)?),
        Action::Bring { way, extent, to } => bring(alloc, name, way, extent, &to, keys),
        Action::MountFile { file, kind, by_key } => mount(alloc, name, file, kind, by_key, keys),
        Action::Unmount => unmount(alloc, name, keys),
        Action::Merge {
            strategy,
            our,
            their,
            base,
        } => merge(alloc, name, strategy, &our, &their, &base, keys),
        Action::Replace(others) => replace(alloc, name, others, keys),
    }
}
