//! The replies of all sessions, as the transcripts of a script show them.
ghost use Rattle.std.specs.Prelude.{◌≡◌, ◌≢◌, ◌≤◌, ◌<◌, ℕ, [], length, slice_index, map as over};
ghost use Rattle.std.specs.Vec.{vec_capacity};
ghost use Rattle.batch_run.specs.Rooms.{AreWide, row_in, told_in};
ghost use Rattle.batch_run.specs.Shown.{AreApart, IsApart, shown_row, shown_rows, told_at};

use crate::rooms::PhaseRooms;
use batch_script::{Phase, Steps};
use kdb_handle::{Reply, Transcripts};
use key_meta::List;
use std::alloc::Global;
use std::mem;

/// The transcripts: for each phase, and each session that it names, the replies in that session's room.
pub fn show_all(
    alloc: Global,
    numbers: &[u32],
    phases: &[Phase],
    rooms: &mut [PhaseRooms],
    shown: Vec<List<List<Reply>>>,
) -> Transcripts
    requires apart { AreApart phases.now }
    requires many { length rooms.old ≡ length phases.now }
    requires wide { AreWide phases.now rooms.old }
    requires none { shown.items ≡ [] }
    requires room { length phases.now ≤ vec_capacity shown }
    ensures { result.phases ≡ shown_rows numbers.now phases.now (over row_in rooms.old) }
{
    let mut shown = shown;
    for place in 0..phases.len() {
        let row = show_phase(
            alloc,
            numbers,
            phases[place].sessions.as_slice(),
            &mut rooms[place],
        );
        shown.push_reserved(row);
    }
    Transcripts {
        phases: List::from_vec(shown),
    }
}

/// The replies of a phase.
fn show_phase(
    alloc: Global,
    numbers: &[u32],
    phase: &[Steps],
    rooms: &mut PhaseRooms,
) -> List<List<Reply>>
    requires apart { IsApart phase.now }
    requires none { rooms.old.shown.items ≡ [] }
    requires room { length phase.now ≤ vec_capacity rooms.old.shown }
    ensures { result ≡ shown_row numbers.now (row_in rooms.old) phase.now }
{
    let mut shown = mem::replace(&mut rooms.shown, Vec::new(alloc));
    for steps in phase {
        let replies = take_room(alloc, numbers, &mut rooms.told, steps.session);
        shown.push_reserved(List::from_vec(replies));
    }
    List::from_vec(shown)
}

/// The replies in the room of a session, which are taken out; a number that no session has finds none.
fn take_room(alloc: Global, numbers: &[u32], rooms: &mut Vec<Vec<Reply>>, number: u32) -> Vec<Reply>
    ensures taken { result.items ≡ told_at numbers.now (over told_in rooms.old.items) number }
    ensures others { (other : ℕ) → other ≢ number
        → told_at numbers.now (over told_in rooms.new.items) other
        ≡ told_at numbers.now (over told_in rooms.old.items) other }
{
    let place = place_of(numbers, number);
    if place < numbers.len() && place < rooms.len() {
        return mem::replace(&mut rooms[place], Vec::new(alloc));
    }
    Vec::new(alloc)
}

/// The first place of a number, or how many numbers there are where it is none of them.
fn place_of(numbers: &[u32], number: u32) -> usize
    ensures within { result ≤ length numbers.now }
    ensures before { (k : ℕ) → k < result → slice_index numbers.now k ≢ number }
    ensures there { result < length numbers.now → slice_index numbers.now result ≡ number }
{
    for (place, it) in numbers.iter().enumerate() {
        if *it == number {
            return place;
        }
    }
    numbers.len()
}
