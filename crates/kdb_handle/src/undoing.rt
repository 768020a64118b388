//! A handle's undoing of a commit: one turn, in which it gets a parent, makes the inverse of the commit on what it got,
//! and sets that.
ghost use Rattle.std.specs.Prelude.{◌≡◌};
ghost use Rattle.kdb_handle.specs.Stores.{IsHandle};
ghost use Rattle.kdb_handle.specs.Undoing.{IsUndone, of_inverse};
ghost use Rattle.kdb_handle.specs.Views.{files_in, lock_of, plan_of};
ghost use Rattle.kdb_handle.specs.declared.undoing.UndoFault.TheVariants.{Memory as OutOfMemory};
ghost use Rattle.model_store.specs.Store.{formats_of};
ghost use Rattle.store_verdict.specs.RecordView.{proc_of};

use crate::{Handle, SetFault, SharedStore};
use commit_undo::InverseFault;
use kdb_outside::Disk;
use key_name::KeyName;
use key_set::KeySet;
use mounted_files::GetFault;
use regex_check::Patterns;
use std::alloc::{AllocError, Global};
use std::sync::Wait;
use storage_api::Formats;
use store_core::Done;

/// Why a commit isn't taken back. The front is the number of commits that the turn found.
#[derive(Drop)]
pub enum UndoFault {
    /// No commit has the number.
    NoCommit { number: u64, front: u64 },
    /// A later commit changes one of its names: the first such commit, and the first such name in it.
    Overtaken { name: KeyName, by: u64, front: u64 },
    /// A mount that the parent involves is bad: the lowest one, and why. It is never want of memory.
    Get(GetFault),
    /// The set was refused, or the disk failed. It is never a mount that wasn't fetched, a conflict or want of memory.
    Set(SetFault),
    /// Want of memory, wherever in the turn it was.
    Memory,
}

impl From<AllocError> for UndoFault {
    ghost from_gives = { λ _ why. why ≡ OutOfMemory };

    fn from(_: AllocError) -> UndoFault {
        UndoFault::Memory
    }
}

impl From<InverseFault> for UndoFault {
    ghost from_gives = { λ fault why. why ≡ of_inverse fault };

    fn from(fault: InverseFault) -> UndoFault {
        match fault {
            InverseFault::NoCommit { number, front } => UndoFault::NoCommit { number, front },
            InverseFault::Overtaken { name, by, front } => UndoFault::Overtaken { name, by, front },
            InverseFault::Memory => UndoFault::Memory,
        }
    }
}

impl Handle {
    /// Takes the commit of a number back, by a commit of its own, as one turn: gets the mountpoint of the mount that
    /// the commit touched, or all keys where it touched several; sets each name of the commit back to what it had
    /// before it; and stores that. On Ok the answer is `Committed`, and the keys are those that were stored. Where the
    /// set was refused the keys become what the get gave. After every other refusal the keys and the record are as
    /// before.
    pub fn kdb_undo<D: Disk, F: Formats + Drop, P: Patterns + Drop, R: Wait>(
        &mut self,
        rt: &R,
        alloc: Global,
        store: &SharedStore<D, F, P>,
        number: u64,
        keys: &mut KeySet,
    ) -> Result<Done, UndoFault>
        requires { IsHandle (lock_of store.now) (plan_of store.now) self.old }
        ensures handle { IsHandle (lock_of store.now) (plan_of store.now) self.new }
        ensures number { self.new.number ≡ self.old.number }
        ensures proc { proc_of self.new.rec ≡ proc_of self.old.rec }
        ensures undone { IsUndone (formats_of F.Formats) (files_in store.now) self.old self.new number keys.old keys.new result }
    {
        let Some(seat) = self.seat.take() else {
            unreachable!()
        };
        let mut turn = store.lock.enter(rt, seat);
        let core = turn.value();
        let done = core.undo(alloc, &store.plan, &mut self.rec, number, keys);
        self.commits = core.commits();
        self.seat = Some(store.lock.leave(turn));
        done
    }
}
