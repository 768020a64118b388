//! The steps of a session's watch.
ghost use Rattle.std.specs.Prelude.{◌≤◌, ◌∷◌, [], length};
ghost use Rattle.batch_run.specs.Stepping.{GoesOn, IsReady};
ghost use Rattle.batch_run.specs.Watching.{IsAsked, IsTelling, IsWatch, Listens};
ghost use Rattle.batch_script.specs.declared.steps.Step.TheVariants as step;
ghost use Rattle.kdb_handle.specs.Stores.{IsHandle};
ghost use Rattle.kdb_handle.specs.Story.{commits_of};
ghost use Rattle.kdb_handle.specs.Views.{lock_of, plan_of};
ghost use Rattle.model_store.specs.Store.{formats_of};

use crate::workspaces::Workspace;
use batch_script::WatchRoom;
use kdb_handle::{Handle, Reply, SharedStore};
use kdb_outside::Disk;
use key_name::KeyName;
use regex_check::Patterns;
use std::alloc::Global;
use std::sync::Wait;
use storage_api::Formats;
use watch_feed::Watch;

/// Watches a parent from behind the commits that the handle has seen. The watch before it ends.
pub(crate) fn watch(
    alloc: Global,
    parent: &KeyName,
    room: &WatchRoom,
    handle: &Handle,
    workspace: &mut Workspace,
) -> Reply
    ensures { IsWatch parent.now room.now (length (commits_of handle.now.seen)) workspace.old workspace.new result }
{
    match handle.kdb_watch(alloc, parent, room.get()) {
        Ok(watch) => {
            let front = watch.front();
            workspace.watch = Some(watch);
            Reply::Watching { front }
        }
        Err(_) => Reply::Memory,
    }
}

/// Tells what changed since. A session without a watch has nothing to tell.
pub(crate) fn poll<D: Disk, F: Formats + Drop, P: Patterns + Drop, R: Wait>(
    rt: &R,
    store: &SharedStore<D, F, P>,
    handle: &mut Handle,
    workspace: &mut Workspace,
) -> Reply
    requires { IsReady (lock_of store.now) (plan_of store.now) handle.old workspace.old }
    ensures { GoesOn (formats_of F.Formats) (lock_of store.now) (plan_of store.now) (step.Poll ∷ []) (result ∷ []) handle.old workspace.old handle.new workspace.new }
{
    match &mut workspace.watch {
        Some(watch) => ask(rt, store, handle, watch),
        None => Reply::NoWatch,
    }
}

/// Has a watch look at all commits there are, and tell what it has to tell.
fn ask<D: Disk, F: Formats + Drop, P: Patterns + Drop, R: Wait>(
    rt: &R,
    store: &SharedStore<D, F, P>,
    handle: &mut Handle,
    watch: &mut Watch,
) -> Reply
    requires handle { IsHandle (lock_of store.now) (plan_of store.now) handle.old }
    requires front { watch.old.front ≤ length (commits_of handle.old.seen) }
    ensures listens { Listens (lock_of store.now) (plan_of store.now) handle.old handle.new }
    ensures asked { IsAsked (commits_of handle.new.seen) watch.old watch.new result }
{
    match handle.kdb_collect(rt, store, watch) {
        Ok(()) => tell(watch),
        Err(_) => Reply::Memory,
    }
}

/// Hands out what a watch has to tell. Without memory it keeps it.
fn tell(watch: &mut Watch) -> Reply
    ensures { IsTelling watch.old watch.new result }
{
    match watch.poll() {
        Ok(news) => Reply::News(news),
        Err(_) => Reply::Memory,
    }
}
