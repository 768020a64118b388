//! How far a script was read: what its lines so far say.
ghost use Rattle.std.specs.Prelude.{◌≡◌, ◌≤◌, ◌∷◌, ◌++◌, List, [], length, IfOk, OnOk};
ghost use Rattle.batch_script.specs.declared.items.Item as code;
ghost use Rattle.batch_script.specs.declared.items.Item.TheVariants.{Proc, Phase as PhaseEnd, Does};
ghost use Rattle.batch_script.specs.Phases.{script_of};
ghost use Rattle.batch_script.specs.Rows.{most_sessions, IsNumbered};
ghost use Rattle.batch_script.specs.Progresses.{Follows, GoesOn, HasRooms, IsKept, IsProgress};
ghost use Rattle.batch_script.specs.Rooms.{gathered};

use crate::counts::MOST_SESSIONS;
use crate::items::Item;
use crate::rows::said;
use crate::steps::{Phase, ProcLine, Script, Step, Steps};
use crate::words::{behind_blanks, is_nothing, words_of};
use file_lines::without_return;
use key_meta::{List, Memory};
use std::alloc::Global;
use std::mem;

/// What the lines so far say.
#[derive(Drop)]
pub struct Progress {
    pub proc: Vec<ProcLine>,
    /// the phases that are over
    pub phases: Vec<Phase>,
    /// the steps of each session in the phase that goes on, by its number less one
    pub rooms: Vec<Vec<Step>>,
    /// the session that the last session line of this phase names
    pub named: Option<u32>,
    /// whether nothing but keys of handles was read
    pub is_header: bool,
}

/// Nothing was read.
pub fn nothing_read(alloc: Global) -> Result<Progress, Memory>
    ensures { IfOk result (λ progress. IsProgress progress []) }
{
    Ok(Progress {
        proc: Vec::new(alloc),
        phases: Vec::new(alloc),
        rooms: empty_rooms(alloc)?,
        named: None,
        is_header: true,
    })
}

/// A room for each session.
fn empty_rooms(alloc: Global) -> Result<Vec<Vec<Step>>, Memory>
    ensures { IfOk result (λ rooms. HasRooms rooms.items []) }
{
    let mut rooms = Vec::with_capacity(alloc, MOST_SESSIONS as usize)?;
    for _made in 0..MOST_SESSIONS {
        rooms.push(Vec::new(alloc))?;
    }
    Ok(rooms)
}

/// Reads a line, if it has a meaning behind the lines before it.
pub fn add_line(progress: &mut Progress, alloc: Global, line: &[u8]) -> Result<bool, Memory>
    requires { IsKept progress.old }
    ensures { IfOk result (λ read. (items : List code.Item) → IsProgress progress.old items → GoesOn progress.new items line.now read) }
{
    let Ok(_) = str::from_utf8(line) else {
        return Ok(false);
    };
    let rest = behind_blanks(without_return(line));
    if is_nothing(rest) {
        return Ok(true);
    }
    let found = words_of(alloc, rest)?;
    let Some(words) = found else {
        return Ok(false);
    };
    let told = said(alloc, &words)?;
    match told {
        Some(item) => add_item(progress, alloc, item),
        None => Ok(false),
    }
}

/// Adds what a line says, if it may stand behind what the lines before it say.
fn add_item(progress: &mut Progress, alloc: Global, item: Item) -> Result<bool, Memory>
    requires kept { IsKept progress.old }
    requires numbered { IsNumbered item }
    ensures { IfOk result (λ added. (items : List code.Item) → IsProgress progress.old items → Follows progress.new items item added) }
{
    match item {
        Item::Proc(line) => add_proc(progress, line),
        Item::Session(session) => {
            progress.named = Some(session);
            progress.is_header = false;
            Ok(true)
        }
        Item::Phase => {
            end_phase(progress, alloc)?;
            Ok(true)
        }
        Item::Does(step) => add_step(progress, step),
    }
}

/// Adds a key of a handle, in the header alone.
fn add_proc(progress: &mut Progress, line: ProcLine) -> Result<bool, Memory>
    ensures { IfOk result (λ added. (items : List code.Item) → IsProgress progress.old items → Follows progress.new items (Proc line) added) }
{
    if !progress.is_header {
        return Ok(false);
    }
    progress.proc.push(line)?;
    Ok(true)
}

/// Adds a step to those of the session that was named last in this phase.
fn add_step(progress: &mut Progress, step: Step) -> Result<bool, Memory>
    requires { IsKept progress.old }
    ensures { IfOk result (λ added. (items : List code.Item) → IsProgress progress.old items → Follows progress.new items (Does step) added) }
{
    let Some(session) = progress.named else {
        return Ok(false);
    };
    progress.rooms[session as usize - 1].push(step)?;
    Ok(true)
}

/// Ends a phase. The next one begins with empty rooms, and with no session.
fn end_phase(progress: &mut Progress, alloc: Global) -> Result<(), Memory>
    requires { IsKept progress.old }
    ensures { OnOk result ((items : List code.Item) → IsProgress progress.old items → IsProgress progress.new (items ++ PhaseEnd ∷ [])) }
{
    let rooms = mem::replace(&mut progress.rooms, empty_rooms(alloc)?);
    let sessions = sessions_of(alloc, rooms)?;
    progress.phases.push(Phase { sessions })?;
    progress.named = None;
    progress.is_header = false;
    Ok(())
}

/// The sessions that have steps, by the rooms of all sessions.
fn sessions_of(alloc: Global, rooms: Vec<Vec<Step>>) -> Result<List<Steps>, Memory>
    requires { length rooms.items ≤ most_sessions }
    ensures { IfOk result (λ sessions. sessions ≡ gathered 1 rooms.items) }
{
    let mut rooms = rooms;
    let mut sessions = Vec::new(alloc);
    while let Some(steps) = rooms.pop() {
        if !steps.is_empty() {
            let session = rooms.len() as u32 + 1;
            let steps = List::from_vec(steps);
            sessions.push(Steps { session, steps })?;
        }
    }
    sessions.reverse();
    Ok(List::from_vec(sessions))
}

/// The script of all lines.
pub fn script_of(progress: Progress, alloc: Global) -> Result<Script, Memory>
    requires { IsKept progress }
    ensures { IfOk result (λ script. (items : List code.Item) → IsProgress progress items → script ≡ script_of items) }
{
    let Progress {
        proc,
        phases,
        rooms,
        ..
    } = progress;
    let mut phases = phases;
    let sessions = sessions_of(alloc, rooms)?;
    phases.push(Phase { sessions })?;
    Ok(Script {
        proc: List::from_vec(proc),
        phases: List::from_vec(phases),
    })
}
