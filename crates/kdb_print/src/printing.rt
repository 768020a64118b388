//! The whole text of a batch.
ghost use Rattle.std.specs.Prelude.{◌≡◌, ◌++◌, IfOk, OnOk, string_bytes};
ghost use Rattle.kdb_print.specs.Printed.{lines_of_phases, lines_of_sessions, printed};
ghost use Rattle.model_lines.specs.Lines.{ended};

use crate::commit_lines::push_history;
use crate::lines::push_line;
use crate::replying::push_replies;
use batch_script::{Phase, Script, Steps};
use commit_log::History;
use kdb_handle::{Reply, Transcripts};
use key_meta::{List, Memory};
use mount_table::MountTable;
use std::alloc::Global;

/// What a batch prints: the replies of its sessions, phase by phase, and the history. `sessions` are the numbers of the
/// sessions that have a handle, ascending: the handles are numbered in their order. It fails only for want of memory.
pub fn print_batch(
    alloc: Global,
    mounts: &MountTable,
    sessions: &[u32],
    script: &Script,
    transcripts: &Transcripts,
    history: &History,
) -> Result<Vec<u8>, Memory>
    ensures { IfOk result (λ text. text.items ≡ printed mounts.now sessions.now script.now transcripts.now.phases history.now.commits) }
{
    let mut text = String::new(alloc);
    push_phases(
        alloc,
        &mut text,
        script.phases.as_slice(),
        transcripts.phases.as_slice(),
    )?;
    push_history(alloc, &mut text, mounts, sessions, history)?;
    push_line(&mut text, "end")?;
    Ok(text.into_bytes())
}

/// Adds the lines of phases, each with its replies.
fn push_phases(
    alloc: Global,
    text: &mut String,
    phases: &[Phase],
    replies: &[List<List<Reply>>],
) -> Result<(), Memory>
    ensures { OnOk result (string_bytes text.new ≡ string_bytes text.old ++ ended (lines_of_phases 1 phases.now replies.now)) }
{
    for i in 0..phases.len() {
        let Some(of_phase) = replies.get(i) else {
            return Ok(());
        };
        let number = i as u64 + 1;
        let line = format!(in alloc; "phase {number}")?;
        push_line(text, line.as_str())?;
        push_sessions(
            alloc,
            text,
            phases[i].sessions.as_slice(),
            of_phase.as_slice(),
        )?;
    }
    Ok(())
}

/// Adds the lines of the sessions of a phase, each with its replies.
fn push_sessions(
    alloc: Global,
    text: &mut String,
    sessions: &[Steps],
    replies: &[List<Reply>],
) -> Result<(), Memory>
    ensures { OnOk result (string_bytes text.new ≡ string_bytes text.old ++ ended (lines_of_sessions sessions.now replies.now)) }
{
    for i in 0..sessions.len() {
        let Some(of_session) = replies.get(i) else {
            return Ok(());
        };
        let session = sessions[i].session;
        let line = format!(in alloc; "session {session}")?;
        push_line(text, line.as_str())?;
        push_replies(alloc, text, of_session.as_slice())?;
    }
    Ok(())
}
