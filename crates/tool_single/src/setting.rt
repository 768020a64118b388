//! What becomes of the keys that a command sets: they are prepared against what its handle got, and committed.
ghost use Rattle.std.specs.Prelude.{◌≡◌, ◌≢◌, ◌≤◌, ℕ, List, Err, IfOk, string_bytes};
ghost use Rattle.kdb_outside.specs.Faults.{HasRisen};
ghost use Rattle.kdb_outside.specs.Frames.{GoesOn};
ghost use Rattle.tool_single.specs.Answer.{tells};
ghost use Rattle.tool_single.specs.Serving.{HasFetched, IsAlone, IsOpen, MayRefuse, Serving};
ghost use Rattle.tool_single.specs.Refusing.{IsRefusalOf};
ghost use Rattle.tool_single.specs.Alone.{store_alone, the_handle};
ghost use Rattle.tool_single.specs.Sets.{AnswersSet, IsRefusal, formats};
ghost use Rattle.model_maps.specs.KeyMap.{KeyMap};
ghost use Rattle.model_names.specs.Name.{Name};
ghost use Rattle.store_verdict.specs.Preparing.{IsMade};
ghost use Rattle.store_verdict.specs.RecordView.{record_of};
ghost use Rattle.store_core.specs.declared.committing.CommitFault.TheVariants.{Conflict as IsConflict, FileTooLarge as IsTooLarge};
ghost use Rattle.store_verdict.specs.declared.faults.PrepareFault.TheVariants.{NotFetched as IsNotFetched};
ghost use Rattle.tool_commands.specs.Report.{IsEnd};
ghost use Rattle.tool_commands.specs.StepView.{report_of};

use crate::answers::Stop;
use all_formats::AllFormats;
use kdb_outside::Disk;
use key_meta::Memory;
use key_name::KeyName;
use key_set::KeySet;
use regex_check::Patterns;
use std::alloc::{AllocError, Global};
use store_core::{CommitFault, Core, Plan};
use store_lines::{
    bad_table, database_full, file_too_large, history_full, invalid, not_storable, value_too_long,
};
use store_verdict::{PrepareFault, Prepared, Record};
use tool_commands::{REFUSED, Report, tell, warn};

/// The answer where keys are set at a parent that the command's handle got.
pub fn set_keys<D: Disk, P: Patterns + Drop>(
    alloc: Global,
    plan: &Plan<AllFormats>,
    core: &mut Core<D, P>,
    rec: &mut Record,
    parent: &KeyName,
    keys: &KeySet,
    out: String,
) -> Result<Report, Stop>
    requires open { IsOpen plan.now core.old }
    requires fetched { HasFetched plan.now.mounted parent.now rec.old }
    ensures serving { Serving D.Disk plan.now.mounted (AnswersSet (MayRefuse result (P.refusals core.old.patterns) (P.refusals core.new.patterns)) plan.now.mounted parent.now keys.now (string_bytes out)) result core.old core.new }
    ensures status { (own : List ℕ) → IfOk result (λ report. IsEnd own report.status) }
    ensures cause { result ≡ Err Stop.DiskFault
        → HasRisen (D.faults core.old.journal.disk) (D.faults core.new.journal.disk) }
    ensures goes { GoesOn D.Disk core.old.journal.disk core.new.journal.disk }
    ensures later { P.refusals core.old.patterns ≤ P.refusals core.new.patterns }
{
    match plan.prepare(alloc, rec, parent, keys) {
        Ok(prepared) => commit_set(alloc, plan, core, rec, prepared, out),
        Err(fault) => Ok(refuse_set(alloc, &fault)?),
    }
}

/// The refusal of a set before the history is asked. Its handle fetched each mount.
fn refuse_set(alloc: Global, fault: &PrepareFault) -> Result<Report, Memory>
    requires { (mount : Name) → fault.now ≢ IsNotFetched mount }
    ensures refused { IfOk result (λ report. IsRefusal fault.now (tells (report_of report))) }
    ensures status { IfOk result (λ report. report.status ≡ 5) }
{
    match fault {
        PrepareFault::ValueTooLong { key, bytes } => {
            warn(alloc, REFUSED, &value_too_long(alloc, key, *bytes)?)
        }
        PrepareFault::FileTooLarge { mount, bytes } => {
            warn(alloc, REFUSED, &file_too_large(alloc, mount, *bytes)?)
        }
        PrepareFault::NotStorable { mount, key } => {
            warn(alloc, REFUSED, &not_storable(alloc, mount, key)?)
        }
        PrepareFault::BadTable { fault } => warn(alloc, REFUSED, &bad_table(alloc, fault)?),
        PrepareFault::NotFetched { .. } => unreachable!(),
        PrepareFault::Memory => Err(AllocError),
    }
}

/// The answer where the set of a handle is committed that got its parent before any commit: none can block it, and no
/// file comes out larger than it was found when the set was prepared.
fn commit_set<D: Disk, P: Patterns + Drop>(
    alloc: Global,
    plan: &Plan<AllFormats>,
    core: &mut Core<D, P>,
    rec: &mut Record,
    prepared: Prepared,
    out: String,
) -> Result<Report, Stop>
    requires open { IsOpen plan.now core.old }
    requires alone { IsAlone plan.now.mounted rec.old prepared }
    ensures serving { (parent : Name) (keys : KeyMap) → HasFetched plan.now.mounted parent rec.old
        → IsMade formats (store_alone plan.now.mounted) the_handle (record_of rec.old) parent keys prepared
        → Serving D.Disk plan.now.mounted (AnswersSet (MayRefuse result (P.refusals core.old.patterns) (P.refusals core.new.patterns)) plan.now.mounted parent keys (string_bytes out)) result core.old core.new }
    ensures status { (own : List ℕ) → IfOk result (λ report. IsEnd own report.status) }
    ensures cause { result ≡ Err Stop.DiskFault
        → HasRisen (D.faults core.old.journal.disk) (D.faults core.new.journal.disk) }
    ensures goes { GoesOn D.Disk core.old.journal.disk core.new.journal.disk }
    ensures later { P.refusals core.old.patterns ≤ P.refusals core.new.patterns }
{
    let report = tell(alloc, out);
    match core.commit(alloc, plan, rec, prepared) {
        Ok(_) => Ok(report),
        Err(fault) => refuse_commit(alloc, fault),
    }
}

/// The answer where a set is not committed.
fn refuse_commit(alloc: Global, fault: CommitFault) -> Result<Report, Stop>
    requires free { (mount : Name) (by front : ℕ) → fault ≢ IsConflict mount by front }
    requires small { (mount : Name) (bytes front : ℕ) → fault ≢ IsTooLarge mount bytes front }
    ensures refused { IsRefusalOf fault result }
    ensures status { IfOk result (λ report. report.status ≡ 5) }
{
    match fault {
        CommitFault::Invalid { violation, .. } => {
            Ok(warn(alloc, REFUSED, &invalid(alloc, &violation)?)?)
        }
        CommitFault::DatabaseFull { weight, .. } => {
            Ok(warn(alloc, REFUSED, &database_full(alloc, weight)?)?)
        }
        CommitFault::HistoryFull { weight, .. } => {
            Ok(warn(alloc, REFUSED, &history_full(alloc, weight)?)?)
        }
        CommitFault::DiskFault { .. } => Err(Stop::DiskFault),
        CommitFault::Memory => Err(Stop::Memory),
        CommitFault::Conflict { .. } | CommitFault::FileTooLarge { .. } => unreachable!(),
    }
}
