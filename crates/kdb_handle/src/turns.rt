//! What the core of an open store does in one turn.
ghost use Rattle.std.specs.Prelude.{◌≡◌, ◌≤◌, ◌<◌, ◌+◌, ◌-◌, ◌^◌, ◌++◌, ℕ, [], List, OnErr, OnOk, Option, length};
ghost use Rattle.kdb_handle.specs.Shares.{IsShared, told_now};
ghost use Rattle.kdb_handle.specs.Story.{Told};
ghost use Rattle.kdb_handle.specs.Turns.{Commits, MayCommit, told_by, told_of_refusal};
ghost use Rattle.model_maps.specs.KeyMap.{KeyMap};
ghost use Rattle.model_store.specs.Records as model;
ghost use Rattle.model_store.specs.Sets as sets;
ghost use Rattle.model_store.specs.Store.{store_of, formats_of};
ghost use Rattle.store_core.specs.Gets.{HasGot};
ghost use Rattle.store_verdict.specs.PreparedView.{prepared_of};
ghost use Rattle.store_verdict.specs.RecordView.{handle_of, places_of, proc_of, record_of};
ghost use Rattle.watch_feed.specs.Watches.{collected};

use crate::Shared;
use crate::shared::Fresh;
use kdb_outside::Disk;
use key_meta::Memory;
use key_name::KeyName;
use mounted_files::GetFault;
use plugin_chain::Violation;
use regex_check::Patterns;
use std::alloc::Global;
use std::snapshot::Snapshot;
use storage_api::Formats;
use store_core::{CommitFault, Done, Got, Plan};
use store_verdict::{Prepared, Record};
use watch_feed::Watch;

/// The most bytes of a pattern.
const LONGEST_PATTERN: usize = 1024;

impl<D: Disk, F: Formats + Drop, P: Patterns + Drop> Shared<D, F, P> {
    /// How many commits there are.
    pub(crate) fn commits(&self) -> u64
        ensures { result ≡ length self.now.core.history.commits }
    {
        self.core.history().len()
    }

    /// A get, of which the story tells nothing.
    pub(crate) fn get(
        &mut self,
        alloc: Global,
        plan: &Plan<F>,
        rec: &mut Record,
        parent: &KeyName,
    ) -> Result<Got, GetFault>
        requires places { length plan.now.mounted ≤ places_of rec.old }
        ensures got { (procs : ℕ → KeyMap) (records : ℕ → model.Record) (prepared : ℕ → Option sets.Prepared)
            → procs (handle_of rec.old) ≡ proc_of rec.old → records (handle_of rec.old) ≡ record_of rec.old
            → HasGot (formats_of F.Formats) (store_of plan.now.mounted procs) plan.now.mounted self.old.core records prepared parent.now rec.old rec.new result }
        ensures handle { handle_of rec.new ≡ handle_of rec.old }
        ensures places { places_of rec.new ≡ places_of rec.old }
        ensures proc { proc_of rec.new ≡ proc_of rec.old }
        ensures core { self.new.core ≡ self.old.core }
        ensures entries { self.new.entries ≡ self.old.entries }
        ensures told { told_now self.new.fresh ≡ [] }
    {
        self.fresh = Fresh::Nothing;
        self.core.get(alloc, plan, rec, parent)
    }

    /// A look of a watch at the commits, of which the story tells nothing.
    pub(crate) fn collect(&mut self, watch: &mut Watch) -> Result<(), Memory>
        requires { watch.old.front ≤ length self.old.core.history.commits }
        ensures ok { OnOk result (watch.new ≡ collected watch.old self.old.core.history.commits) }
        ensures err { OnErr result (watch.new ≡ watch.old) }
        ensures core { self.new.core ≡ self.old.core }
        ensures entries { self.new.entries ≡ self.old.entries }
        ensures told { told_now self.new.fresh ≡ [] }
    {
        self.fresh = Fresh::Nothing;
        watch.collect(self.core.history())
    }

    /// A flush, of which the story tells nothing, whatever comes of it.
    pub(crate) fn flush(&mut self)
        ensures shared { (log : List Told)
            → IsShared (formats_of F.Formats) D.Disk D.row.coded P.refusals self.old.core self.old.entries log
            → IsShared (formats_of F.Formats) D.Disk D.row.coded P.refusals self.new.core self.new.entries (log ++ told_now self.new.fresh) }
        ensures told { told_now self.new.fresh ≡ [] }
    {
        self.fresh = Fresh::Nothing;
        let _ = self.core.flush();
    }

    /// A commit. The story tells of it where it was made, or begun; so there has to be room for one more entry before
    /// the disk is touched.
    pub(crate) fn commit(
        &mut self,
        alloc: Global,
        plan: &Plan<F>,
        rec: &mut Record,
        prepared: Prepared,
    ) -> Result<Done, CommitFault>
        requires may { (log : List Told)
            × MayCommit (formats_of F.Formats) D.Disk D.row.coded P.refusals plan.now.mounted self.old.core self.old.entries log rec.old prepared }
        ensures { Commits (formats_of F.Formats) D.Disk D.row.coded P.refusals plan.now.mounted self.old self.new rec.old rec.new prepared result }
    {
        self.fresh = Fresh::Nothing;
        if self.entries == u64::MAX {
            return Err(CommitFault::Memory);
        }
        let set = Snapshot::of(&prepared);
        let answer = self.core.commit(alloc, plan, rec, prepared);
        self.tell(set, &answer);
        answer
    }

    /// Has the story tell of a set by the answer to its commit.
    fn tell(&mut self, set: Snapshot<Prepared>, answer: &Result<Done, CommitFault>)
        requires { self.old.entries < 2 ^ 64 - 1 }
        ensures told { told_now self.new.fresh ≡ told_by (prepared_of set.value) answer.now }
        ensures count { self.new.entries ≡ self.old.entries + length (told_by (prepared_of set.value) answer.now) }
        ensures core { self.new.core ≡ self.old.core }
    {
        match answer {
            Ok(Done::Committed { .. }) => {
                self.entries += 1;
                self.fresh = Fresh::Committed(set);
            }
            Err(CommitFault::DiskFault { .. }) => {
                self.entries += 1;
                self.fresh = Fresh::Failed(set);
            }
            Err(CommitFault::Invalid { violation, .. }) => self.tell_refusal(set, violation),
            Ok(Done::Same { .. })
            | Err(
                CommitFault::Conflict { .. }
                | CommitFault::FileTooLarge { .. }
                | CommitFault::DatabaseFull { .. }
                | CommitFault::HistoryFull { .. }
                | CommitFault::Memory,
            ) => self.fresh = Fresh::Nothing,
        }
    }

    /// Has the story tell of a set with this violation, if it is a refused pattern that could be one by its length.
    fn tell_refusal(&mut self, set: Snapshot<Prepared>, violation: &Violation)
        requires { self.old.entries < 2 ^ 64 - 1 }
        ensures told { told_now self.new.fresh ≡ told_of_refusal (prepared_of set.value) violation.now }
        ensures count { self.new.entries
            ≡ self.old.entries + length (told_of_refusal (prepared_of set.value) violation.now) }
        ensures core { self.new.core ≡ self.old.core }
    {
        if violation.rule == 6 && violation.given.as_str().len() <= LONGEST_PATTERN {
            self.entries += 1;
            self.fresh = Fresh::Refused(set);
        } else {
            self.fresh = Fresh::Nothing;
        }
    }
}
