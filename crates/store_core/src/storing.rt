//! A set that is a commit enters the history: memory is taken first, then the disk is written, and then the commit is
//! kept.
ghost use Rattle.std.specs.Prelude.{◌≤◌, ◌<◌, ◌++◌, ◌∷◌, [], All, length, map as over};
ghost use Rattle.commit_log.specs.CommitView.{commit_of};
ghost use Rattle.store_core.specs.Heads.{names_at};
ghost use Rattle.model_history.specs.History.{history_weight, heaviest_history};
ghost use Rattle.store_core.specs.Entering.{EntersHistory};
ghost use Rattle.store_phases.specs.Phases.{IsOfRun};
ghost use Rattle.store_verdict.specs.RecordView.{places_of, record_of};

use crate::{CommitFault, Core, Done, Plan};
use commit_log::Commit;
use journal_codec::encode;
use kdb_outside::Disk;
use key_set::KeySet;
use regex_check::Patterns;
use std::alloc::Global;
use storage_api::Formats;
use store_phases::commit;
use store_verdict::{Prepared, Record};

impl<D: Disk, P: Patterns + Drop> Core<D, P> {
    /// Stores a set that is a commit, and has its record keep what was wanted. All memory is taken before the disk is
    /// touched. From `Ok` on every crash leaves the commit; else what is kept is as it was, and after `DiskFault` at
    /// most one entry may still come into the files.
    pub(crate) fn enter<F: Formats + Drop>(
        &mut self,
        alloc: Global,
        plan: &Plan<F>,
        rec: &mut Record,
        prepared: Prepared,
        entering: Commit,
        keys: KeySet,
        left_aside: u64,
    ) -> Result<Done, CommitFault>
        requires entry { IsOfRun (names_at (over (λ file. file.mount) plan.now.mounted)) prepared.texts }
        requires light { history_weight (self.old.history.commits ++ commit_of entering ∷ []) ≤ heaviest_history }
        requires count { (record_of rec.old).committed ≤ length self.old.history.commits }
        requires places { All (λ part. part.mount < places_of rec.old) prepared.wanted }
        ensures { EntersHistory D.Disk (over (λ file. file.mount) plan.now.mounted) (commit_of entering) left_aside keys prepared self.old self.new rec.old rec.new result }
    {
        let front = self.history.len();
        let Prepared { texts, wanted, .. } = prepared;
        let encoded = encode(alloc, texts.as_slice())?;
        self.history.reserve(entering.touched.as_slice())?;
        self.wrote = true;
        let Ok(()) = commit(&mut self.journal, plan.header(), &encoded, texts) else {
            return Err(CommitFault::DiskFault { front });
        };
        self.history.push(entering);
        self.keys = keys;
        let number = self.history.len();
        rec.store(plan.table(), number, wanted);
        Ok(Done::Committed { number, left_aside })
    }
}
