//! `validate`: which rules the keys break.
ghost use Rattle.std.specs.Prelude.{◌≤◌, IfOk};
ghost use Rattle.kdb_outside.specs.Faults.{HasRisen};
ghost use Rattle.kdb_outside.specs.Frames.{GoesOn};
ghost use Rattle.store_core.specs.Frames.{IsUnwritten};
ghost use Rattle.tool_commands.specs.Commands.{every_key};
ghost use Rattle.tool_commands.specs.StepView.{report_of};
ghost use Rattle.tool_words.specs.Request.{ViolationsOf};
ghost use Rattle.tool_single.specs.Alone.{got_alone};
ghost use Rattle.tool_single.specs.Answer.{tells};
ghost use Rattle.tool_single.specs.Answers.{AnswersChecked};
ghost use Rattle.tool_single.specs.Serving.{IsOpen};
ghost use Rattle.tool_single.specs.Untold.{IsStatusOf};

use crate::answering::{fetch, new_record, refuse_get};
use all_formats::AllFormats;
use kdb_outside::Disk;
use key_meta::Memory;
use key_name::KeyName;
use regex_check::Patterns;
use std::alloc::Global;
use store_core::{Core, Plan};
use tool_commands::{Report, every_key, tell_checked};

/// `validate`: the violations of all keys, of those at or below a name.
pub fn check_keys<D: Disk, P: Patterns + Drop>(
    alloc: Global,
    plan: &Plan<AllFormats>,
    core: &mut Core<D, P>,
    name: &KeyName,
) -> Result<Report, Memory>
    requires open { IsOpen plan.now core.old }
    ensures answers { IfOk result (λ report. AnswersChecked (λ _. HasRisen (P.refusals core.old.patterns) (P.refusals core.new.patterns)) name.now (got_alone plan.now.mounted every_key) (tells (report_of report))) }
    ensures kept { IsUnwritten core.old core.new }
    ensures status { IfOk result (λ report. IsStatusOf (ViolationsOf name.now) report.status) }
    ensures later { P.refusals core.old.patterns ≤ P.refusals core.new.patterns }
    ensures goes { GoesOn D.Disk core.old.journal.disk core.new.journal.disk }
{
    let parent = every_key(alloc);
    let mut rec = new_record(alloc, plan)?;
    match fetch(alloc, plan, core, &mut rec, &parent) {
        Ok(keys) => {
            let violations = core.violations(&keys, name)?;
            tell_checked(alloc, violations.as_slice())
        }
        Err(fault) => refuse_get(alloc, fault),
    }
}
