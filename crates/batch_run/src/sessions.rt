//! A session, and how it takes some steps.
ghost use Rattle.std.specs.Prelude.{◌≡◌, ◌+◌, ◌^◌, ◌<◌, ◌≤◌, [], length};
ghost use Rattle.std.specs.Vec.{vec_capacity};
ghost use Rattle.kdb_handle.specs.Views.{lock_of, plan_of};
ghost use Rattle.batch_run.specs.Stepping.{GoesOn, IsReady};
ghost use Rattle.model_store.specs.Store.{formats_of};

use crate::turns::take_step;
use crate::workspaces::Workspace;
use batch_script::Step;
use kdb_handle::{Handle, Reply, SharedStore};
use kdb_outside::{Disk, Gate};
use regex_check::Patterns;
use std::alloc::Global;
use std::sync::Wait;
use storage_api::Formats;

/// A session between its steps.
#[derive(Drop)]
pub struct Session {
    /// Its number in the script.
    pub number: u32,
    /// How many of its steps the gate has let pass.
    pub passed: u32,
    pub handle: Handle,
    pub workspace: Workspace,
}

impl Session {
    /// Takes some steps, each behind the gate, with one reply for each. A step that finds no memory does nothing, and
    /// the session goes on.
    pub fn take_steps<G: Gate, D: Disk, F: Formats + Drop, P: Patterns + Drop, R: Wait>(
        &mut self,
        gate: &G,
        rt: &R,
        alloc: Global,
        store: &SharedStore<D, F, P>,
        steps: &[Step],
        replies: &mut Vec<Reply>,
    )
        requires ready { IsReady (lock_of store.now) (plan_of store.now) self.old.handle self.old.workspace }
        requires none { replies.old.items ≡ [] }
        requires room { length steps.now ≤ vec_capacity replies.old }
        ensures goes { GoesOn (formats_of F.Formats) (lock_of store.now) (plan_of store.now) steps.now replies.new.items self.old.handle self.old.workspace self.new.handle self.new.workspace }
        ensures number { self.new.number ≡ self.old.number }
        ensures passed { self.old.passed + length steps.now < 2 ^ 32
            → self.new.passed ≡ self.old.passed + length steps.now }
    {
        for step in steps {
            self.passed = self.passed.saturating_add(1);
            gate.pass(self.number, self.passed);
            let reply = take_step(
                rt,
                alloc,
                store,
                step,
                &mut self.handle,
                &mut self.workspace,
            );
            replies.push_reserved(reply);
        }
    }
}
