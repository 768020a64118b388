//! What is told of a batch whose sessions took their steps.
ghost use Rattle.std.specs.Prelude.{◌≡◌, IfOk, map as over};
ghost use Rattle.model_batch.specs.Scripts as batches;
ghost use Rattle.kdb_tool.specs.Plays.{report_with};
ghost use Rattle.kdb_tool.specs.Working.{AnswersWith};
ghost use Rattle.tool_commands.specs.StepView.{report_of};

use all_formats::AllFormats;
use batch_run::sessions_of;
use batch_script::Script;
use commit_log::History;
use kdb_handle::Transcripts;
use kdb_print::{print_batch, status_of};
use key_meta::Memory;
use mount_table::MountTable;
use std::alloc::Global;
use store_core::Plan;
use tool_commands::{Report, Status};
use tool_single::Stop;

/// What the text of a batch names beside its replies: the mounts, and the numbers of the sessions.
#[derive(Drop)]
pub struct Names {
    pub mounts: MountTable,
    pub sessions: Vec<u32>,
}

/// The names of a script on an opened store.
pub fn names_of(alloc: Global, plan: &Plan<AllFormats>, script: &Script) -> Result<Names, Memory>
    ensures mounts { IfOk result (λ names. names.mounts ≡ over (λ file. file.mount) plan.now.mounted) }
    ensures sessions { IfOk result (λ names. names.sessions.items ≡ batches.sessions_of script.now) }
{
    Ok(Names {
        mounts: plan.table().copy()?,
        sessions: sessions_of(alloc, script)?,
    })
}

/// The answer of a batch by what its sessions replied, unless there was no memory for that.
pub fn answer_of(
    alloc: Global,
    names: &Names,
    script: &Script,
    transcripts: Option<Transcripts>,
    history: &History,
) -> Result<Report, Stop>
    ensures { AnswersWith names.now.mounts names.now.sessions.items script.now history.now.commits transcripts result }
{
    match transcripts {
        Some(transcripts) => Ok(report_batch(alloc, names, script, &transcripts, history)?),
        None => Err(Stop::Memory),
    }
}

/// Their replies and the history on out, and the worst of the replies as the status.
fn report_batch(
    alloc: Global,
    names: &Names,
    script: &Script,
    transcripts: &Transcripts,
    history: &History,
) -> Result<Report, Memory>
    ensures { IfOk result (λ report. report_of report ≡ report_with names.now.mounts names.now.sessions.items script.now transcripts.now history.now.commits) }
{
    let out = print_batch(
        alloc,
        &names.mounts,
        names.sessions.as_slice(),
        script,
        transcripts,
        history,
    )?;
    Ok(Report {
        status: Status::new(status_of(transcripts)),
        out,
        err: String::new(alloc),
    })
}
