//! Room for all replies of a batch, taken before its first step.
ghost use Rattle.std.specs.Prelude.{IfOk};
ghost use Rattle.batch_run.specs.Rooms.{ArePhaseRooms, AreRooms, HaveRoom};

use crate::places::steps_among;
use batch_script::{Phase, Steps};
use kdb_handle::Reply;
use key_meta::{List, Memory};
use std::alloc::Global;

/// Room for the replies of a phase: first for each session, and then as the transcripts show them.
#[derive(Drop)]
pub struct PhaseRooms {
    pub told: Vec<Vec<Reply>>,
    pub shown: Vec<List<Reply>>,
}

/// Room for the replies of all phases.
pub fn rooms_of(alloc: Global, numbers: &[u32], phases: &[Phase]) -> Result<Vec<PhaseRooms>, Memory>
    ensures { IfOk result (λ rooms. ArePhaseRooms numbers.now phases.now rooms.items) }
{
    let mut rooms = Vec::with_capacity(alloc, phases.len())?;
    for phase in phases {
        rooms.push(phase_rooms(alloc, numbers, phase.sessions.as_slice())?)?;
    }
    Ok(rooms)
}

fn phase_rooms(alloc: Global, numbers: &[u32], phase: &[Steps]) -> Result<PhaseRooms, Memory>
    ensures { IfOk result (λ rooms. AreRooms numbers.now phase.now rooms) }
{
    Ok(PhaseRooms {
        told: told_rooms(alloc, numbers, phase)?,
        shown: Vec::with_capacity(alloc, phase.len())?,
    })
}

/// For each session room for the replies to its steps.
fn told_rooms(alloc: Global, numbers: &[u32], phase: &[Steps]) -> Result<Vec<Vec<Reply>>, Memory>
    ensures { IfOk result (λ rooms. HaveRoom numbers.now phase.now rooms.items) }
{
    let mut rooms = Vec::with_capacity(alloc, numbers.len())?;
    for number in numbers {
        rooms.push(Vec::with_capacity(alloc, steps_among(*number, phase).len())?)?;
    }
    Ok(rooms)
}
