//! Flushes between events.
ghost use Rattle.store_play.specs.Flushed.{HasFlushed};

use crate::Flushes;
use kdb_outside::Disk;
use regex_check::Patterns;
use store_core::Core;

/// Makes the flushes that come behind so many events: one for each time that the number is among these.
pub(crate) fn flush_behind<D: Disk, P: Patterns + Drop>(
    core: &mut Core<D, P>,
    flushes: &[usize],
    count: usize,
    told: &mut Flushes,
)
    ensures { HasFlushed D.Disk core.old core.new }
{
    for place in flushes {
        if *place == count {
            flush(core, told);
        }
    }
}

/// Makes a flush, and counts how it went.
fn flush<D: Disk, P: Patterns + Drop>(core: &mut Core<D, P>, told: &mut Flushes)
    ensures { HasFlushed D.Disk core.old core.new }
{
    match core.flush() {
        Ok(true) => told.wrote = told.wrote.saturating_add(1),
        Ok(false) => told.idle = told.idle.saturating_add(1),
        Err(_) => told.failed = told.failed.saturating_add(1),
    }
}
