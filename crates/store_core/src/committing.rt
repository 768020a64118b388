//! A commit of a handle's prepared set: the history and the rules decide, then memory is taken, then the disk is
//! written, and then the record moves.
ghost use Rattle.std.specs.Prelude.{◌≡◌, ◌≤◌, ◌<◌, ℕ, IfOk, None, length, map as over};
ghost use Rattle.model_history.specs.Changes.{after};
ghost use Rattle.model_maps.specs.KeyMap.{KeyMap};
ghost use Rattle.model_store.specs.Rules.{has_risen};
ghost use Rattle.model_store.specs.Store.{formats_of, store_of};
ghost use Rattle.model_store.specs.Verdicts.{IsLate, conflict};
ghost use Rattle.store_core.specs.Answers.{IsConflict, IsTooLarge};
ghost use Rattle.store_core.specs.Renewed.{with_texts};
ghost use Rattle.store_verdict.specs.Renewing.{BringsTexts, MayRenew};
ghost use Rattle.store_core.specs.Commits.{CommitsSet};
ghost use Rattle.store_core.specs.Joined.{IsReady};
ghost use Rattle.store_core.specs.declared.committing.CommitFault.TheVariants as fault;
ghost use Rattle.store_verdict.specs.LateView.{late_of};
ghost use Rattle.store_verdict.specs.PreparedView.{prepared_of};

use crate::{Core, Plan};
use commit_log::History;
use journal_codec::FileText;
use kdb_outside::Disk;
use key_meta::{List, Memory};
use key_name::KeyName;
use key_set::KeySet;
use mount_table::MountTable;
use plugin_chain::Violation;
use regex_check::Patterns;
use std::alloc::{AllocError, Global};
use storage_api::Formats;
use store_verdict::{Late, Prepared, Record, any_counts_by_key, judge};

/// What a commit that wasn't refused did.
#[derive(Clone, Copy, PartialEq, Eq)]
pub enum Done {
    /// The set is the commit of this number.
    Committed { number: u64, left_aside: u64 },
    /// No mount was touched.
    Same { front: u64, left_aside: u64 },
}

/// Why a set isn't committed. `front` is how many commits were found.
#[derive(Drop)]
pub enum CommitFault {
    /// A later commit touches a mount, or where the mount counts by key another handle's later commit changes a key
    /// that the set changes there: the lowest such mount, and the number of its first such commit.
    Conflict {
        mount: KeyName,
        by: u64,
        front: u64,
    },
    /// After the set the file of a mount that counts by key would hold keys that weigh more than 16,777,216, or have
    /// more than 1,048,576 bytes: so many. The lowest such mount.
    FileTooLarge {
        mount: KeyName,
        bytes: u64,
        front: u64,
    },
    /// A key that a touched mount owns breaks a rule after the set: the first violation. Rule 6 tells a pattern of at
    /// most 1,024 bytes only where the matcher's count of refusals rose in this call.
    Invalid {
        violation: Violation,
        front: u64,
    },
    /// The map after the set would weigh more than 16,777,216: so much.
    DatabaseFull {
        weight: u64,
        front: u64,
    },
    /// The history with the set would weigh more than 67,108,864: so much.
    HistoryFull {
        weight: u64,
        front: u64,
    },
    DiskFault {
        front: u64,
    },
    Memory,
}

impl From<AllocError> for CommitFault {
    ghost from_gives = { λ _ why. why ≡ fault.Memory };

    fn from(_: AllocError) -> CommitFault {
        CommitFault::Memory
    }
}

/// What the history and the rules decide of a set, and the keys after it.
#[derive(Drop)]
struct Judged {
    late: Late,
    keys: KeySet,
}

impl<D: Disk, P: Patterns + Drop> Core<D, P> {
    /// Commits a set that the record of its handle accepts. Nothing to do, a conflict, too large a file, a broken rule
    /// and want of room are found before the disk is touched, and so is want of memory. Where a touched mount counts by
    /// key, the texts of the touched files are made anew of the keys after the set, with what others changed there.
    /// Amid it a crash leaves the files, with the former doubt or with the entry that the history gives of the set.
    /// From `Committed` on every crash leaves the commit; and the record has then for each touched mount what was
    /// wanted there, with the commit's number, or where the mount counts by key with the front that it had. After every
    /// other answer the keys, the history and the record are as before.
    pub fn commit<F: Formats + Drop>(
        &mut self,
        alloc: Global,
        plan: &Plan<F>,
        rec: &mut Record,
        prepared: Prepared,
    ) -> Result<Done, CommitFault>
        requires ready { IsReady (formats_of F.Formats) plan.now.mounted self.old rec.old prepared }
        ensures { CommitsSet (formats_of F.Formats) D.Disk P.refusals plan.now.mounted self.old self.new rec.old rec.new prepared result }
    {
        let front = self.history.len();
        let judged = match judge_set(
            alloc,
            &mut self.patterns,
            plan,
            &mut self.history,
            &self.keys,
            &prepared,
        ) {
            Ok(judged) => judged,
            Err(_) => return Err(CommitFault::Memory),
        };
        let Judged { late, keys } = judged;
        match late {
            Late::Same { left_aside } => Ok(Done::Same { front, left_aside }),
            Late::Conflict { mount, by } => Err(conflict(plan, mount, by, front)),
            Late::TooLarge { mount, bytes } => Err(too_large(plan, mount, bytes, front)),
            Late::Invalid { violation } => Err(CommitFault::Invalid { violation, front }),
            Late::DatabaseFull { weight } => Err(CommitFault::DatabaseFull { weight, front }),
            Late::HistoryFull { weight } => Err(CommitFault::HistoryFull { weight, front }),
            Late::Commits {
                commit,
                left_aside,
                renewed,
            } => {
                let prepared = with_texts(prepared, renewed);
                self.enter(alloc, plan, rec, prepared, commit, keys, left_aside)
            }
        }
    }
}

/// What the history and the rules decide of a set, and the keys after it.
fn judge_set<F: Formats + Drop, P: Patterns>(
    alloc: Global,
    patterns: &mut P,
    plan: &Plan<F>,
    history: &mut History,
    keys: &KeySet,
    prepared: &Prepared,
) -> Result<Judged, Memory>
    requires { (procs : ℕ → KeyMap)
        → conflict (store_of plan.now.mounted procs) history.old.commits (prepared_of prepared.now) ≡ None
        → MayRenew (formats_of F.Formats) (store_of plan.now.mounted procs) (after keys.now prepared.now.changes) prepared.now.touched }
    ensures late { IfOk result (λ made. (procs : ℕ → KeyMap)
        → IsLate (formats_of F.Formats) (store_of plan.now.mounted procs) history.old.commits keys.now (prepared_of prepared.now) (late_of (has_risen (P.refusals patterns.old) (P.refusals patterns.new)) made.late)) }
    ensures renewed { IfOk result (λ made. (procs : ℕ → KeyMap) → BringsTexts (formats_of F.Formats) (store_of plan.now.mounted procs) made.keys prepared.now.touched made.late) }
    ensures keys { IfOk result (λ made. made.keys ≡ after keys.now prepared.now.changes) }
    ensures same { history.new ≡ history.old }
    ensures later { P.refusals patterns.old ≤ P.refusals patterns.new }
{
    make_ready(history, plan.table(), prepared.touched.as_slice())?;
    let keys = prepared.changes.applied(keys)?;
    let late = judge(
        alloc,
        &plan.formats,
        patterns,
        plan.mounted(),
        history,
        &keys,
        prepared,
    )?;
    Ok(Judged { late, keys })
}

/// Makes a history ready to be asked for names, where one of some mounts counts by key.
fn make_ready(history: &mut History, table: &MountTable, touched: &[u32]) -> Result<(), Memory>
    ensures { history.new ≡ history.old }
{
    if any_counts_by_key(table, touched) {
        history.index_names()?;
    }
    Ok(())
}

/// A set with the texts that were made anew, if they were.
fn with_texts(prepared: Prepared, renewed: Option<List<FileText>>) -> Prepared
    ensures { result ≡ with_texts prepared renewed }
{
    match renewed {
        Some(texts) => Prepared { texts, ..prepared },
        None => prepared,
    }
}

/// The file of a mount would be too large, which is told by its mountpoint.
fn too_large<F: Formats + Drop>(plan: &Plan<F>, mount: usize, bytes: u64, front: u64) -> CommitFault
    requires { mount < length (over (λ file. file.mount) plan.now.mounted) }
    ensures { IsTooLarge (over (λ file. file.mount) plan.now.mounted) mount bytes front result }
{
    let Some(mount) = plan.table().mount(mount) else {
        unreachable!()
    };
    match mount.at.copy() {
        Ok(mount) => CommitFault::FileTooLarge {
            mount,
            bytes,
            front,
        },
        Err(_) => CommitFault::Memory,
    }
}

/// A later commit blocks a mount, which is told by its mountpoint.
fn conflict<F: Formats + Drop>(plan: &Plan<F>, mount: usize, by: u64, front: u64) -> CommitFault
    requires { mount < length (over (λ file. file.mount) plan.now.mounted) }
    ensures { IsConflict (over (λ file. file.mount) plan.now.mounted) mount by front result }
{
    let Some(mount) = plan.table().mount(mount) else {
        unreachable!()
    };
    match mount.at.copy() {
        Ok(mount) => CommitFault::Conflict { mount, by, front },
        Err(_) => CommitFault::Memory,
    }
}
