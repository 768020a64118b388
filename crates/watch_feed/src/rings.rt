//! The ring that a watch keeps its changes in.
ghost use Rattle.std.specs.Prelude.{◌≡◌, ◌-◌, ◌≤◌, ◌++◌, [], IfOk, OnErr, OnOk, length};
ghost use Rattle.circular_buffer.specs.Buffer.{buffer, keep_last};

use crate::Changed;
use circular_buffer::HeapCircularBuffer;
use key_meta::Memory;
use std::alloc::Global;

/// Puts some changes behind those of a ring, which keeps the last of all. Gives how many there was no room for.
pub fn keep(ring: &mut HeapCircularBuffer<Changed>, told: Vec<Changed>) -> u64
    ensures ring { ring.new ≡ buffer (keep_last ring.old.capacity (ring.old.items ++ told.items)) ring.old.capacity }
    ensures left_out { result ≡ length (ring.old.items ++ told.items) - ring.old.capacity }
{
    let free = ring.capacity() - ring.len();
    let left_out = told.len().saturating_sub(free);
    for changed in told {
        ring.push_back(changed);
    }
    left_out as u64
}

/// Takes all changes out of a ring, in their order. Where there is no memory for their list, they stay.
pub fn hand_out(
    alloc: Global,
    ring: &mut HeapCircularBuffer<Changed>,
) -> Result<Vec<Changed>, Memory>
    ensures items { IfOk result (λ changes. changes.items ≡ ring.old.items) }
    ensures ok { OnOk result (ring.new ≡ buffer [] ring.old.capacity) }
    ensures err { OnErr result (ring.new ≡ ring.old) }
{
    let mut changes = Vec::with_capacity(alloc, ring.len())?;
    while let Some(changed) = ring.pop_front() {
        changes.push_reserved(changed);
    }
    Ok(changes)
}
