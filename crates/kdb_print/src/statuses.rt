//! How a batch ends.
ghost use Rattle.std.specs.Prelude.{◌≡◌};
ghost use Rattle.std.specs.List.{list_any};
ghost use Rattle.kdb_handle.specs.declared.setting.SetFault.TheVariants.{Prepare};
ghost use Rattle.kdb_print.specs.Replies.{end_meets_fault, end_wants_memory, get_wants_memory, is_disk_fault, is_memory, set_meets_fault, set_wants_memory, some_reply, status_of, undo_meets_fault, undo_wants_memory};

use kdb_handle::{MergeEnd, Reply, SetFault, Transcripts, UndoFault};
use key_meta::List;
use mount_table::TableFault;
use mounted_files::GetFault;
use store_core::CommitFault;
use store_verdict::PrepareFault;

/// A step wanted memory.
const OUT_OF_MEMORY: u8 = 70;

/// The disk failed in a step.
const FAULT: u8 = 74;

/// How a batch ends.
pub fn status_of(transcripts: &Transcripts) -> u8
    ensures { result ≡ status_of transcripts.now.phases }
{
    let phases = transcripts.phases.as_slice();
    if batch_wants_memory(phases) {
        return OUT_OF_MEMORY;
    }
    if batch_meets_fault(phases) {
        return FAULT;
    }
    0
}

/// Whether a step of a batch wanted memory.
fn batch_wants_memory(phases: &[List<List<Reply>>]) -> bool
    ensures { result ≡ some_reply is_memory phases.now }
{
    for phase in phases {
        if phase_wants_memory(phase.as_slice()) {
            return true;
        }
    }
    false
}

fn phase_wants_memory(sessions: &[List<Reply>]) -> bool
    ensures { result ≡ list_any (list_any is_memory) sessions.now }
{
    for replies in sessions {
        if session_wants_memory(replies.as_slice()) {
            return true;
        }
    }
    false
}

fn session_wants_memory(replies: &[Reply]) -> bool
    ensures { result ≡ list_any is_memory replies.now }
{
    for reply in replies {
        if is_memory(reply) {
            return true;
        }
    }
    false
}

/// Whether the disk failed in a step of a batch.
fn batch_meets_fault(phases: &[List<List<Reply>>]) -> bool
    ensures { result ≡ some_reply is_disk_fault phases.now }
{
    for phase in phases {
        if phase_meets_fault(phase.as_slice()) {
            return true;
        }
    }
    false
}

fn phase_meets_fault(sessions: &[List<Reply>]) -> bool
    ensures { result ≡ list_any (list_any is_disk_fault) sessions.now }
{
    for replies in sessions {
        if session_meets_fault(replies.as_slice()) {
            return true;
        }
    }
    false
}

fn session_meets_fault(replies: &[Reply]) -> bool
    ensures { result ≡ list_any is_disk_fault replies.now }
{
    for reply in replies {
        if is_disk_fault(reply) {
            return true;
        }
    }
    false
}

/// Whether a reply is a want of memory, alone or inside a refusal.
fn is_memory(reply: &Reply) -> bool
    ensures { result ≡ is_memory reply.now }
{
    match reply {
        Reply::Memory => true,
        Reply::GetRefused(fault) => get_wants_memory(fault),
        Reply::SetRefused(fault) => set_wants_memory(fault),
        Reply::MergeRefused(fault) => end_wants_memory(&fault.end),
        Reply::UndoRefused(fault) => undo_wants_memory(fault),
        _ => false,
    }
}

fn undo_wants_memory(fault: &UndoFault) -> bool
    ensures { result ≡ undo_wants_memory fault.now }
{
    match fault {
        UndoFault::Get(fault) => get_wants_memory(fault),
        UndoFault::Set(fault) => set_wants_memory(fault),
        UndoFault::Memory => true,
        _ => false,
    }
}

fn get_wants_memory(fault: &GetFault) -> bool
    ensures { result ≡ get_wants_memory fault.now }
{
    matches!(fault, GetFault::Memory)
}

fn end_wants_memory(end: &MergeEnd) -> bool
    ensures { result ≡ end_wants_memory end.now }
{
    match end {
        MergeEnd::Set(fault) => set_wants_memory(fault),
        MergeEnd::Memory => true,
        _ => false,
    }
}

fn set_wants_memory(fault: &SetFault) -> bool
    ensures { result ≡ set_wants_memory fault.now }
{
    match fault {
        SetFault::Prepare(fault) => prepare_wants_memory(fault),
        SetFault::Commit(fault) => matches!(fault, CommitFault::Memory),
    }
}

fn prepare_wants_memory(fault: &PrepareFault) -> bool
    ensures { result ≡ set_wants_memory (Prepare fault.now) }
{
    match fault {
        PrepareFault::BadTable { fault } => matches!(fault, TableFault::Memory),
        PrepareFault::Memory => true,
        _ => false,
    }
}

/// Whether a reply is a fault of the disk.
fn is_disk_fault(reply: &Reply) -> bool
    ensures { result ≡ is_disk_fault reply.now }
{
    match reply {
        Reply::SetRefused(fault) => set_meets_fault(fault),
        Reply::MergeRefused(fault) => end_meets_fault(&fault.end),
        Reply::UndoRefused(fault) => undo_meets_fault(fault),
        _ => false,
    }
}

fn undo_meets_fault(fault: &UndoFault) -> bool
    ensures { result ≡ undo_meets_fault fault.now }
{
    match fault {
        UndoFault::Set(fault) => set_meets_fault(fault),
        _ => false,
    }
}

fn end_meets_fault(end: &MergeEnd) -> bool
    ensures { result ≡ end_meets_fault end.now }
{
    match end {
        MergeEnd::Set(fault) => set_meets_fault(fault),
        _ => false,
    }
}

fn set_meets_fault(fault: &SetFault) -> bool
    ensures { result ≡ set_meets_fault fault.now }
{
    match fault {
        SetFault::Commit(fault) => matches!(fault, CommitFault::DiskFault { .. }),
        SetFault::Prepare(_) => false,
    }
}
