//! The lines of replies.
ghost use Rattle.std.specs.Prelude.{◌≡◌, ◌++◌, ◌∷◌, [], IfOk, OnOk, map as over, string_bytes};
ghost use Rattle.std.specs.List.{flat_map};
ghost use Rattle.kdb_print.specs.Replies.{line_of_commit, line_of_conflicts, line_of_done, line_of_end, line_of_get, line_of_prepare, line_of_set, line_of_table, line_of_try, line_of_undo, lines_of_reply, memory, refused, refused_at};
ghost use Rattle.model_lines.specs.Lines.{ended};
ghost use Rattle.model_quoting.specs.Quoted.{shown};

use crate::lines::push_line;
use crate::news_lines::push_news;
use kdb_handle::{MergeEnd, Reply, SetFault, Tried, UndoFault};
use kdb_text::{quoted, shown};
use key_meta::Memory;
use key_name::KeyName;
use mount_table::TableFault;
use mounted_files::GetFault;
use std::alloc::Global;
use store_core::{CommitFault, Done};
use store_lines::{
    bad_file, bad_table, database_full, file_too_large, history_full, invalid, not_fetched,
    not_storable, too_heavy, too_long, value_too_long,
};
use store_verdict::PrepareFault;

/// Adds the lines of a session's replies.
pub fn push_replies(alloc: Global, text: &mut String, replies: &[Reply]) -> Result<(), Memory>
    ensures { OnOk result (string_bytes text.new ≡ string_bytes text.old ++ ended (flat_map lines_of_reply replies.now)) }
{
    for reply in replies {
        push_reply(alloc, text, reply)?;
    }
    Ok(())
}

/// Adds the lines of a reply.
fn push_reply(alloc: Global, text: &mut String, reply: &Reply) -> Result<(), Memory>
    ensures { OnOk result (string_bytes text.new ≡ string_bytes text.old ++ ended (lines_of_reply reply.now)) }
{
    match reply {
        Reply::Got { front, count } => {
            let line = format!(in alloc; "got {front} {count}")?;
            push_line(text, line.as_str())
        }
        Reply::GetRefused(fault) => {
            let line = line_of_get(alloc, fault)?;
            push_line(text, line.as_str())
        }
        Reply::Quiet => Ok(()),
        Reply::LookFound { name, value } => {
            let name = shown(alloc, name)?;
            let value = quoted(alloc, value.as_str())?;
            let line = format!(in alloc; "found {name} {value}")?;
            push_line(text, line.as_str())
        }
        Reply::LookNone => push_line(text, "none"),
        Reply::SetDone(done) => {
            let line = line_of_done(alloc, done)?;
            push_line(text, line.as_str())
        }
        Reply::SetRefused(fault) => {
            let line = line_of_set(alloc, fault)?;
            push_line(text, line.as_str())
        }
        Reply::Merged(merging) => {
            push_tries(alloc, text, merging.tried.as_slice())?;
            let line = line_of_done(alloc, &merging.done)?;
            push_line(text, line.as_str())
        }
        Reply::MergeRefused(fault) => {
            push_tries(alloc, text, fault.tried.as_slice())?;
            let line = line_of_end(alloc, &fault.end)?;
            push_line(text, line.as_str())
        }
        Reply::Watching { front } => {
            let line = format!(in alloc; "watch {front}")?;
            push_line(text, line.as_str())
        }
        Reply::News(news) => push_news(alloc, text, news),
        Reply::NoWatch => push_line(text, "no-watch"),
        Reply::Undone(done) => {
            let line = line_of_done(alloc, done)?;
            push_line(text, line.as_str())
        }
        Reply::UndoRefused(fault) => {
            let line = line_of_undo(alloc, fault)?;
            push_line(text, line.as_str())
        }
        Reply::Memory => push_line(text, "memory"),
    }
}

/// Adds a line for each of the tries of a merge that were merged.
fn push_tries(alloc: Global, text: &mut String, tried: &[Tried]) -> Result<(), Memory>
    ensures { OnOk result (string_bytes text.new ≡ string_bytes text.old ++ ended (over line_of_try tried.now)) }
{
    for item in tried {
        push_try(alloc, text, item)?;
    }
    Ok(())
}

/// Adds the line of a try.
fn push_try(alloc: Global, text: &mut String, item: &Tried) -> Result<(), Memory>
    ensures { OnOk result (string_bytes text.new ≡ string_bytes text.old ++ ended (line_of_try item.now ∷ [])) }
{
    let mount = shown(alloc, &item.mount)?;
    let line = format!(in alloc;
        "tried {mount} by {} front {} again {}",
        item.by, item.front, item.again
    )?;
    push_line(text, line.as_str())
}

/// The line of a merge that was not stored.
fn line_of_end(alloc: Global, end: &MergeEnd) -> Result<String, Memory>
    ensures { IfOk result (λ line. string_bytes line ≡ line_of_end end.now) }
{
    match end {
        MergeEnd::MergeConflicts { names } => line_of_conflicts(alloc, names.as_slice()),
        MergeEnd::TriesSpent { mount, by, front } => {
            let mount = shown(alloc, mount)?;
            format!(in alloc; "spent {mount} by {by} front {front}")
        }
        MergeEnd::Set(fault) => line_of_set(alloc, fault),
        MergeEnd::Memory => memory(alloc),
    }
}

/// The line of the keys that both sides of a merge had changed.
fn line_of_conflicts(alloc: Global, names: &[KeyName]) -> Result<String, Memory>
    ensures { IfOk result (λ line. string_bytes line ≡ line_of_conflicts names.now) }
{
    let mut line = String::from_str(alloc, "merge-conflict")?;
    for name in names {
        push_name(alloc, &mut line, name)?;
    }
    Ok(line)
}

/// Adds a blank and a name to a line.
fn push_name(alloc: Global, line: &mut String, name: &KeyName) -> Result<(), Memory>
    ensures { OnOk result (string_bytes line.new ≡ string_bytes line.old ++ (32 ∷ shown name.now)) }
{
    let name = shown(alloc, name)?;
    line.push(' ')?;
    line.push_str(name.as_str())
}

/// The line of an undo that was refused.
fn line_of_undo(alloc: Global, fault: &UndoFault) -> Result<String, Memory>
    ensures { IfOk result (λ line. string_bytes line ≡ line_of_undo fault.now) }
{
    match fault {
        UndoFault::NoCommit { number, front } => {
            format!(in alloc; "refused C01320 no-commit {number} front {front}")
        }
        UndoFault::Overtaken { name, by, front } => {
            let name = shown(alloc, name)?;
            format!(in alloc; "refused C02000 overtaken {name} by {by} front {front}")
        }
        UndoFault::Get(fault) => line_of_get(alloc, fault),
        UndoFault::Set(fault) => line_of_set(alloc, fault),
        UndoFault::Memory => memory(alloc),
    }
}

/// The line of a get that was refused.
fn line_of_get(alloc: Global, fault: &GetFault) -> Result<String, Memory>
    ensures { IfOk result (λ line. string_bytes line ≡ line_of_get fault.now) }
{
    match fault {
        GetFault::BadFile { mount, line } => refused(alloc, bad_file(alloc, mount, *line)?),
        GetFault::TooLong { mount, bytes } => refused(alloc, too_long(alloc, mount, *bytes)?),
        GetFault::TooHeavy { mount, weight } => refused(alloc, too_heavy(alloc, mount, *weight)?),
        GetFault::Memory => memory(alloc),
    }
}

/// The line of a set that was stored, or touched no mount.
fn line_of_done(alloc: Global, done: &Done) -> Result<String, Memory>
    ensures { IfOk result (λ line. string_bytes line ≡ line_of_done done.now) }
{
    match done {
        Done::Committed { number, left_aside } => {
            format!(in alloc; "commit {number} aside {left_aside}")
        }
        Done::Same { front, left_aside } => format!(in alloc; "same {front} aside {left_aside}"),
    }
}

/// The line of a set that was not stored.
fn line_of_set(alloc: Global, fault: &SetFault) -> Result<String, Memory>
    ensures { IfOk result (λ line. string_bytes line ≡ line_of_set fault.now) }
{
    match fault {
        SetFault::Prepare(fault) => line_of_prepare(alloc, fault),
        SetFault::Commit(fault) => line_of_commit(alloc, fault),
    }
}

/// The line of a set that was not prepared.
fn line_of_prepare(alloc: Global, fault: &PrepareFault) -> Result<String, Memory>
    ensures { IfOk result (λ line. string_bytes line ≡ line_of_prepare fault.now) }
{
    match fault {
        PrepareFault::NotFetched { mount } => refused(alloc, not_fetched(alloc, mount)?),
        PrepareFault::ValueTooLong { key, bytes } => {
            refused(alloc, value_too_long(alloc, key, *bytes)?)
        }
        PrepareFault::NotStorable { mount, key } => {
            refused(alloc, not_storable(alloc, mount, key)?)
        }
        PrepareFault::FileTooLarge { mount, bytes } => {
            refused(alloc, file_too_large(alloc, mount, *bytes)?)
        }
        PrepareFault::BadTable { fault } => line_of_table(alloc, fault),
        PrepareFault::Memory => memory(alloc),
    }
}

/// The line of keys that make no mount table.
fn line_of_table(alloc: Global, fault: &TableFault) -> Result<String, Memory>
    ensures { IfOk result (λ line. string_bytes line ≡ line_of_table fault.now) }
{
    match fault {
        TableFault::Memory => memory(alloc),
        _ => refused(alloc, bad_table(alloc, fault)?),
    }
}

/// The line of a set that was not committed.
fn line_of_commit(alloc: Global, fault: &CommitFault) -> Result<String, Memory>
    ensures { IfOk result (λ line. string_bytes line ≡ line_of_commit fault.now) }
{
    match fault {
        CommitFault::Conflict { mount, by, front } => {
            let mount = shown(alloc, mount)?;
            format!(in alloc; "conflict {mount} by {by} front {front}")
        }
        CommitFault::FileTooLarge {
            mount,
            bytes,
            front,
        } => refused_at(alloc, file_too_large(alloc, mount, *bytes)?, *front),
        CommitFault::Invalid { violation, front } => {
            refused_at(alloc, invalid(alloc, violation)?, *front)
        }
        CommitFault::DatabaseFull { weight, front } => {
            refused_at(alloc, database_full(alloc, *weight)?, *front)
        }
        CommitFault::HistoryFull { weight, front } => {
            refused_at(alloc, history_full(alloc, *weight)?, *front)
        }
        CommitFault::DiskFault { front } => {
            format!(in alloc; "refused C01100 disk-fault front {front}")
        }
        CommitFault::Memory => memory(alloc),
    }
}

/// The line of a refusal that the store has a line for.
fn refused(alloc: Global, text: String) -> Result<String, Memory>
    ensures { IfOk result (λ line. string_bytes line ≡ refused (string_bytes text)) }
{
    format!(in alloc; "refused {text}")
}

/// The same, with how many commits were found.
fn refused_at(alloc: Global, text: String, front: u64) -> Result<String, Memory>
    ensures { IfOk result (λ line. string_bytes line ≡ refused_at (string_bytes text) front) }
{
    format!(in alloc; "refused {text} front {front}")
}

/// The line of a want of memory.
fn memory(alloc: Global) -> Result<String, Memory>
    ensures { IfOk result (λ line. string_bytes line ≡ memory) }
{
    String::from_str(alloc, "memory")
}
