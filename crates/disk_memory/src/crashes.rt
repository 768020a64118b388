//! What a crash leaves of the files of a disk in memory.
ghost use Rattle.std.specs.Prelude.{◌≡◌, ℕ, List, IfOk};
ghost use Rattle.disk_memory.specs.Choices.{left_of_step, left_along};
ghost use Rattle.disk_memory.specs.DiskState.{bytes_of};
ghost use Rattle.disk_memory.specs.Steps.{steps_of, after_all, LeavesAfter, synced};

use crate::changes::{Change, Step};
use crate::mem_files::{MemFile, apply_in, bytes_in, copies, put_in};
use crate::torn::{Choice, torn_cut, torn_write};
use kdb_outside::Memory;
use std::alloc::Global;

/// What a crash leaves of a file behind a step, where a read gave and a crash left these bytes before.
fn left_after(
    alloc: Global,
    choice: Choice,
    seen: &[u8],
    former: &[u8],
    step: &Step,
) -> Result<Vec<u8>, Memory>
    ensures { IfOk result (λ now. now.items ≡ left_of_step choice step.now seen.now former.now) }
{
    match step {
        Step::Wrote { at, bytes } => torn_write(alloc, choice, former, *at as usize, bytes.bytes()),
        Step::Cut { new_length } => torn_cut(alloc, choice, former, *new_length as usize),
        Step::Synced => Vec::from_slice(alloc, seen),
    }
}

/// What a crash leaves of these files behind these changes: 0 chooses what was synced, 1 what a read gives. The changes
/// of all files are numbered together, so that files which were changed alike are torn each in its own way.
pub(crate) fn left_by(
    alloc: Global,
    number: u64,
    first: &[MemFile],
    past: &[Change],
) -> Result<Vec<MemFile>, Memory>
    ensures chosen { IfOk result (λ files. (file : List ℕ) → bytes_of files.items file ≡ left_along number file 0 (bytes_of first.now file) (bytes_of first.now file) past.now) }
    ensures left { IfOk result (λ files. (file : List ℕ) → LeavesAfter (bytes_of first.now file) (bytes_of first.now file) (steps_of file past.now) (bytes_of files.items file)) }
    ensures sure { number ≡ 0
        → IfOk result (λ files. (file : List ℕ) → bytes_of files.items file ≡ synced (bytes_of first.now file) (bytes_of first.now file) (steps_of file past.now)) }
    ensures whole { number ≡ 1
        → IfOk result (λ files. (file : List ℕ) → bytes_of files.items file ≡ after_all (bytes_of first.now file) (steps_of file past.now)) }
{
    let mut seen = copies(alloc, first)?;
    let mut left = copies(alloc, first)?;
    for (i, change) in past.iter().enumerate() {
        let choice = Choice {
            number,
            step: i as u64,
        };
        let content = left_after(
            alloc,
            choice,
            bytes_in(&seen, &change.file),
            bytes_in(&left, &change.file),
            &change.step,
        )?;
        put_in(&mut left, &change.file, content)?;
        apply_in(alloc, &mut seen, change)?;
    }
    Ok(left)
}
