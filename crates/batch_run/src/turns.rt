//! One step of a session.
ghost use Rattle.std.specs.Prelude.{◌∷◌, []};
ghost use Rattle.batch_script.specs.declared.steps.Step.TheVariants as step;
ghost use Rattle.kdb_handle.specs.Views.{lock_of, plan_of};
ghost use Rattle.batch_run.specs.Stepping.{GoesOn, IsReady};
ghost use Rattle.model_store.specs.Store.{formats_of};

use crate::editing::{cut, delete, look, put, set_meta};
use crate::watching::{poll, watch};
use crate::workspaces::Workspace;
use batch_script::{CommitNumber, Step, Tries};
use kdb_handle::{Handle, Reply, SharedStore};
use kdb_outside::Disk;
use key_merge::Strategy;
use key_name::KeyName;
use regex_check::Patterns;
use std::alloc::Global;
use std::sync::Wait;
use storage_api::Formats;

/// Takes a step with a handle and a workspace, and replies to it.
pub(crate) fn take_step<D: Disk, F: Formats + Drop, P: Patterns + Drop, R: Wait>(
    rt: &R,
    alloc: Global,
    store: &SharedStore<D, F, P>,
    step: &Step,
    handle: &mut Handle,
    workspace: &mut Workspace,
) -> Reply
    requires { IsReady (lock_of store.now) (plan_of store.now) handle.old workspace.old }
    ensures { GoesOn (formats_of F.Formats) (lock_of store.now) (plan_of store.now) (step.now ∷ []) (result ∷ []) handle.old workspace.old handle.new workspace.new }
{
    match step {
        Step::Get { parent } => get(rt, alloc, store, parent, handle, workspace),
        Step::Put { name, value } => put(alloc, name, value, &mut workspace.keys),
        Step::MetaStep { name, meta, value } => {
            set_meta(alloc, name, meta, value, &mut workspace.keys)
        }
        Step::Del { name } => delete(name, &mut workspace.keys),
        Step::Cut { name } => cut(name, &mut workspace.keys),
        Step::Look { name } => look(name, &workspace.keys),
        Step::Set { parent } => set(rt, alloc, store, parent, handle, workspace),
        Step::Merge {
            parent,
            strategy,
            tries,
        } => merge(
            rt, alloc, store, parent, *strategy, tries, handle, workspace,
        ),
        Step::Watch { parent, room } => watch(alloc, parent, room, handle, workspace),
        Step::Poll => poll(rt, store, handle, workspace),
        Step::Undo { number } => undo(rt, alloc, store, number, handle, workspace),
    }
}

/// Gets the keys of a parent, which become the working set.
fn get<D: Disk, F: Formats + Drop, P: Patterns + Drop, R: Wait>(
    rt: &R,
    alloc: Global,
    store: &SharedStore<D, F, P>,
    parent: &KeyName,
    handle: &mut Handle,
    workspace: &mut Workspace,
) -> Reply
    requires { IsReady (lock_of store.now) (plan_of store.now) handle.old workspace.old }
    ensures { GoesOn (formats_of F.Formats) (lock_of store.now) (plan_of store.now) (step.Get parent.now ∷ []) (result ∷ []) handle.old workspace.old handle.new workspace.new }
{
    match handle.kdb_get(rt, alloc, store, parent) {
        Ok(got) => {
            let count = got.keys.len() as u64;
            workspace.keys = got.keys;
            Reply::Got {
                front: got.front,
                count,
            }
        }
        Err(why) => Reply::GetRefused(why),
    }
}

/// Sets the working set, which stays.
fn set<D: Disk, F: Formats + Drop, P: Patterns + Drop, R: Wait>(
    rt: &R,
    alloc: Global,
    store: &SharedStore<D, F, P>,
    parent: &KeyName,
    handle: &mut Handle,
    workspace: &Workspace,
) -> Reply
    requires { IsReady (lock_of store.now) (plan_of store.now) handle.old workspace.now }
    ensures { GoesOn (formats_of F.Formats) (lock_of store.now) (plan_of store.now) (step.Set parent.now ∷ []) (result ∷ []) handle.old workspace.now handle.new workspace.now }
{
    match handle.kdb_set(rt, alloc, store, parent, &workspace.keys) {
        Ok(done) => Reply::SetDone(done),
        Err(why) => Reply::SetRefused(why),
    }
}

/// Sets the working set in some tries, each merged with what was in the way of the one before. It becomes what was set.
fn merge<D: Disk, F: Formats + Drop, P: Patterns + Drop, R: Wait>(
    rt: &R,
    alloc: Global,
    store: &SharedStore<D, F, P>,
    parent: &KeyName,
    strategy: Strategy,
    tries: &Tries,
    handle: &mut Handle,
    workspace: &mut Workspace,
) -> Reply
    requires { IsReady (lock_of store.now) (plan_of store.now) handle.old workspace.old }
    ensures { GoesOn (formats_of F.Formats) (lock_of store.now) (plan_of store.now) (step.Merge parent.now strategy tries.now ∷ []) (result ∷ []) handle.old workspace.old handle.new workspace.new }
{
    let keys = &mut workspace.keys;
    match handle.kdb_set_merged(rt, alloc, store, parent, keys, strategy, tries.get()) {
        Ok(merging) => Reply::Merged(merging),
        Err(fault) => Reply::MergeRefused(fault),
    }
}

/// Takes a commit back. The working set becomes what was set, or what the get before it gave.
fn undo<D: Disk, F: Formats + Drop, P: Patterns + Drop, R: Wait>(
    rt: &R,
    alloc: Global,
    store: &SharedStore<D, F, P>,
    number: &CommitNumber,
    handle: &mut Handle,
    workspace: &mut Workspace,
) -> Reply
    requires { IsReady (lock_of store.now) (plan_of store.now) handle.old workspace.old }
    ensures { GoesOn (formats_of F.Formats) (lock_of store.now) (plan_of store.now) (step.Undo number.now ∷ []) (result ∷ []) handle.old workspace.old handle.new workspace.new }
{
    match handle.kdb_undo(rt, alloc, store, number.get(), &mut workspace.keys) {
        Ok(done) => Reply::Undone(done),
        Err(why) => Reply::UndoRefused(why),
    }
}
