//! What the core of an open store does in one turn to take a commit back.
ghost use Rattle.std.specs.Prelude.{◌≡◌, ◌≤◌, [], List, IfOk, length, map as over};
ghost use Rattle.kdb_handle.specs.Shares.{told_now};
ghost use Rattle.kdb_handle.specs.Story.{Told};
ghost use Rattle.kdb_handle.specs.UndoTurns.{Fetches, MayUndo, SetsIn, Undoes, of_get, undo_in, wants_memory};
ghost use Rattle.key_name.specs.Owner.{IsPoints};
ghost use Rattle.model_store.specs.Store.{formats_of};
ghost use Rattle.model_undone.specs.UndoSets.{parent_over, touched_by};
ghost use Rattle.store_verdict.specs.RecordView.{places_of};

use crate::shared::Fresh;
use crate::{SetFault, Shared, UndoFault};
use commit_log::{History, make_changes};
use commit_undo::inverse;
use kdb_outside::Disk;
use key_meta::Memory;
use key_name::{KeyName, Namespace};
use key_set::KeySet;
use mount_table::MountTable;
use mounted_files::GetFault;
use regex_check::Patterns;
use std::alloc::Global;
use storage_api::Formats;
use store_core::{CommitFault, Done, Plan};
use store_verdict::{PrepareFault, Record};

/// What an undoing has before its set: the parent that it got, a copy of the record with what that keeps then, the keys
/// that the get gave, and these with the inverse made on them.
#[derive(Drop)]
pub(crate) struct Fetching {
    parent: KeyName,
    rec: Record,
    got: KeySet,
    made: KeySet,
}

impl<D: Disk, F: Formats + Drop, P: Patterns + Drop> Shared<D, F, P> {
    /// Takes a commit back. All memory but that of the commit itself is taken before the commit, so that nothing can be
    /// wanting behind it.
    pub(crate) fn undo(
        &mut self,
        alloc: Global,
        plan: &Plan<F>,
        rec: &mut Record,
        number: u64,
        keys: &mut KeySet,
    ) -> Result<Done, UndoFault>
        requires may { (log : List Told)
            × MayUndo (formats_of F.Formats) D.Disk D.row.coded P.refusals plan.now.mounted self.old.core self.old.entries log rec.old }
        ensures { Undoes (formats_of F.Formats) D.Disk D.row.coded P.refusals plan.now.mounted self.old self.new rec.old rec.new number keys.old keys.new result }
    {
        self.fresh = Fresh::Nothing;
        let fetching = self.fetch(alloc, plan, rec, number)?;
        let Fetching {
            parent,
            rec: mut left,
            got,
            made,
        } = fetching;
        match self.set_in(alloc, plan, &mut left, &parent, &made) {
            Ok(done) => {
                *rec = left;
                *keys = made;
                Ok(done)
            }
            Err(why) => {
                if wants_memory(&why) {
                    return Err(UndoFault::Memory);
                }
                *rec = left;
                *keys = got;
                Err(UndoFault::Set(why))
            }
        }
    }

    /// What an undoing gets and makes before its set.
    fn fetch(
        &self,
        alloc: Global,
        plan: &Plan<F>,
        rec: &Record,
        number: u64,
    ) -> Result<Fetching, UndoFault>
        requires { length plan.now.mounted ≤ places_of rec.now }
        ensures { (log : List Told)
            → MayUndo (formats_of F.Formats) D.Disk D.row.coded P.refusals plan.now.mounted self.now.core self.now.entries log rec.now
            → Fetches (undo_in plan.now.mounted rec.now log number) rec.now result }
    {
        let history = self.core.history();
        let changes = inverse(alloc, history, self.core.start(), number)?;
        let parent = parent_of(alloc, plan.table(), history, number)?;
        let mut copied = rec.copy()?;
        let got = match self.core.get(alloc, plan, &mut copied, &parent) {
            Ok(got) => got.keys,
            Err(why) => return Err(of_get(why)),
        };
        let mut made = got.copy()?;
        make_changes(&mut made, changes.as_slice())?;
        Ok(Fetching {
            parent,
            rec: copied,
            got,
            made,
        })
    }

    /// Prepares a set against a record, and commits it.
    fn set_in(
        &mut self,
        alloc: Global,
        plan: &Plan<F>,
        rec: &mut Record,
        parent: &KeyName,
        keys: &KeySet,
    ) -> Result<Done, SetFault>
        requires may { (log : List Told)
            × MayUndo (formats_of F.Formats) D.Disk D.row.coded P.refusals plan.now.mounted self.old.core self.old.entries log rec.old }
        requires fresh { told_now self.old.fresh ≡ [] }
        ensures { SetsIn (formats_of F.Formats) D.Disk D.row.coded P.refusals plan.now.mounted self.old self.new rec.old rec.new parent.now keys.now result }
    {
        match plan.prepare(alloc, rec, parent, keys) {
            Ok(prepared) => match self.commit(alloc, plan, rec, prepared) {
                Ok(done) => Ok(done),
                Err(why) => Err(SetFault::Commit(why)),
            },
            Err(why) => Err(SetFault::Prepare(why)),
        }
    }
}

/// The parent at which the commit of a number is undone.
fn parent_of(
    alloc: Global,
    table: &MountTable,
    history: &History,
    number: u64,
) -> Result<KeyName, Memory>
    ensures points { IfOk result (λ _. IsPoints (over (λ mount. mount.at) table.now)) }
    ensures is { IfOk result (λ parent. parent ≡ parent_over (over (λ mount. mount.at) table.now) (touched_by history.now.commits number)) }
{
    match history.commit(number) {
        Some(commit) => parent_over(alloc, table.points(), commit.touched.as_slice()),
        None => parent_over(alloc, table.points(), &[]),
    }
}

/// The parent of some touched mounts: the mountpoint of the one, and the cascading root where it isn't just one.
fn parent_over(alloc: Global, points: &[KeyName], touched: &[u32]) -> Result<KeyName, Memory>
    ensures { IfOk result (λ parent. parent ≡ parent_over points.now touched.now) }
{
    if touched.len() == 1 {
        if let Some(point) = points.get(touched[0] as usize) {
            return point.copy();
        }
    }
    Ok(KeyName::root(alloc, Namespace::Cascading))
}

/// The refusal of a get, as an undoing tells it.
fn of_get(why: GetFault) -> UndoFault
    ensures { result ≡ of_get why }
{
    match why {
        GetFault::Memory => UndoFault::Memory,
        why => UndoFault::Get(why),
    }
}

/// Whether the refusal of a set is want of memory.
fn wants_memory(why: &SetFault) -> bool
    ensures { result ≡ wants_memory why.now }
{
    match why {
        SetFault::Prepare(fault) => matches!(fault, PrepareFault::Memory),
        SetFault::Commit(fault) => matches!(fault, CommitFault::Memory),
    }
}
