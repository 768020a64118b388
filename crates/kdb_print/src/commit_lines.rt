//! The lines of a history.
ghost use Rattle.std.specs.Prelude.{◌≡◌, ◌<◌, ◌+◌, ◌++◌, ◌∷◌, [], OnOk, IfOk, string_bytes};
ghost use Rattle.std.specs.List.{flat_map};
ghost use Rattle.commit_log.specs.CommitView.{commit_of};
ghost use Rattle.kdb_print.specs.Printed.{line_of_touched, lines_of_commit, lines_of_history, points_of, session_of};
ghost use Rattle.model_lines.specs.Lines.{ended};
ghost use Rattle.model_quoting.specs.Quoted.{shown};

use crate::change_lines::push_changes;
use crate::lines::push_line;
use commit_log::{Commit, History};
use kdb_text::shown;
use key_meta::Memory;
use mount_table::MountTable;
use std::alloc::Global;

/// Adds the lines of a history.
pub fn push_history(
    alloc: Global,
    text: &mut String,
    mounts: &MountTable,
    sessions: &[u32],
    history: &History,
) -> Result<(), Memory>
    ensures { OnOk result (string_bytes text.new ≡ string_bytes text.old ++ ended (lines_of_history mounts.now sessions.now history.now.commits)) }
{
    let commits = history.len();
    let line = format!(in alloc; "history {commits}")?;
    push_line(text, line.as_str())?;
    for i in 0..commits {
        let Some(commit) = history.commit(i + 1) else {
            return Ok(());
        };
        push_commit(alloc, text, mounts, sessions, i + 1, commit)?;
    }
    Ok(())
}

/// Adds the lines of the commit of a number.
fn push_commit(
    alloc: Global,
    text: &mut String,
    mounts: &MountTable,
    sessions: &[u32],
    number: u64,
    commit: &Commit,
) -> Result<(), Memory>
    ensures { OnOk result (string_bytes text.new ≡ string_bytes text.old ++ ended (lines_of_commit mounts.now sessions.now number (commit_of commit.now))) }
{
    let session = session_of(sessions, commit.handle);
    let line = format!(in alloc; "commit {number} by {session}")?;
    push_line(text, line.as_str())?;
    let touched = line_of_touched(alloc, mounts, commit.touched.as_slice())?;
    push_line(text, touched.as_str())?;
    push_changes(alloc, text, commit.changes.as_slice())
}

/// The session whose handle has a number, 0 where none has.
fn session_of(sessions: &[u32], handle: u32) -> u32
    ensures { result ≡ session_of sessions.now handle }
{
    let at = handle.saturating_sub(1) as usize;
    if at < sessions.len() { sessions[at] } else { 0 }
}

/// The line of the mounts that a commit touched.
fn line_of_touched(alloc: Global, mounts: &MountTable, touched: &[u32]) -> Result<String, Memory>
    ensures { IfOk result (λ line. string_bytes line ≡ line_of_touched (points_of mounts.now touched.now)) }
{
    let mut line = String::from_str(alloc, "touched")?;
    for number in touched {
        push_point(alloc, &mut line, mounts, *number)?;
    }
    Ok(line)
}

/// Adds a blank and the mountpoint of a mount to a line, and nothing where the table has no such mount.
fn push_point(
    alloc: Global,
    line: &mut String,
    mounts: &MountTable,
    number: u32,
) -> Result<(), Memory>
    ensures { OnOk result (string_bytes line.new ≡ string_bytes line.old ++ flat_map (λ point. 32 ∷ shown point) (points_of mounts.now (number ∷ []))) }
{
    let Some(mount) = mounts.mount(number as usize) else {
        return Ok(());
    };
    let point = shown(alloc, &mount.at)?;
    line.push(' ')?;
    line.push_str(point.as_str())
}
