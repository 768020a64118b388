//! Sessions at a gate, over a disk in memory.
use crate::disks::empty_disk;
use crate::gates::{CountingGate, MeetingGate};
use all_formats::AllFormats;
use batch_run::{Played, play_on, what_bytes_read_as_can_be_played};
use batch_script::parse_script;
use disk_memory::MemDisk;
use kdb_outside::Gate;
use regex_check::RegexPatterns;
use std::alloc::Global;
use std::sync::Wait;
use std::test::*;
use std::thread::Threads;
use store_core::{Opened, open_store};

/// Plays a script on a disk.
pub fn play<G: Gate + Sync, R: Threads + Wait + Sync>(
    rt: &R,
    alloc: Global,
    disk: MemDisk,
    gate: &G,
    text: &str,
) -> Option<Played<MemDisk, RegexPatterns>> {
    what_bytes_read_as_can_be_played();
    let Ok(script) = parse_script(alloc, text.as_bytes()) else {
        return None;
    };
    let Ok(Opened { plan, core }) = open_store(alloc, disk, AllFormats, RegexPatterns::new()) else {
        return None;
    };
    Some(play_on(rt, alloc, gate, plan, core, &script))
}

/// A script in which so many sessions each get all keys twice, in one phase.
fn two_gets_each(alloc: Global, sessions: u32) -> Result<String, Fail> {
    let mut text = String::new(alloc);
    for session in 1..=sessions {
        text.push_str(&format!(in alloc; "session {session}\nget /\nget /\n")?)?;
    }
    Ok(text)
}

/// How many of so many sessions missed the others at their second step, and whether all steps were taken.
fn missed_of<R: Threads + Wait + Sync>(
    rt: &R,
    alloc: Global,
    sessions: u32,
    text: &str,
) -> Result<(u64, bool), Fail> {
    let gate = MeetingGate::new(sessions as u64);
    let played = play(rt, alloc, empty_disk(alloc)?, &gate, text).ok_or("it is played")?;
    Ok((gate.missed(), played.transcripts.is_some()))
}

/// The same of so many sessions in one phase.
fn missed_in_one_phase<R: Threads + Wait + Sync>(
    rt: &R,
    alloc: Global,
    sessions: u32,
) -> Result<(u64, bool), Fail> {
    missed_of(
        rt,
        alloc,
        sessions,
        two_gets_each(alloc, sessions)?.as_str(),
    )
}

#[test]
fn as_many_sessions_as_a_script_may_have_meet_amid_their_steps(
    rt: HostRuntime,
) -> Result<(), Fail> {
    assert_eq!(rt; missed_in_one_phase(&rt, rt.alloc(), 32)?, (0, true));
    Ok(())
}

/// The first one has ended when the second one begins: what the gate notes of sessions that run one after the other.
#[test]
fn sessions_of_two_phases_do_not_meet(rt: HostRuntime) -> Result<(), Fail> {
    let text = "session 1\nget /\nget /\nphase\nsession 2\nget /\nget /\n";
    assert_eq!(rt; missed_of(&rt, rt.alloc(), 2, text)?, (1, true));
    Ok(())
}

/// How often a gate was asked, what it was told, and how many calls the disk had, where all steps of a script were
/// taken.
fn counted<R: Threads + Wait + Sync>(
    rt: &R,
    alloc: Global,
    text: &str,
) -> Result<(u64, u64, u64), Fail> {
    let gate = CountingGate::new();
    let played = play(rt, alloc, empty_disk(alloc)?, &gate, text).ok_or("it is played")?;
    if played.transcripts.is_none() {
        return Err("its steps are told")?;
    }
    Ok((gate.calls(), gate.told(), played.closed.disk.calls()))
}

/// The number of a step is its place among all steps of its session. Edits are steps, and so is a set that is refused.
#[test]
fn the_gate_is_asked_before_each_step(rt: HostRuntime) -> Result<(), Fail> {
    let text =
        "session 3\nput user:/a 1\nset user:/\nphase\nsession 7\nlook /a\nphase\nsession 3\nget /\n";
    let (calls, told, _) = counted(&rt, rt.alloc(), text)?;
    assert_eq!(rt; (calls, told), (4, 301 + 302 + 701 + 303));
    Ok(())
}

/// The calls of the disk: seven of the opening, two for the gate that it left in doubt, four for the head, four of each
/// commit, and five of each time that the file is written. The first time is the flusher's, in the first phase or in
/// the second, and the other one is its own in the last phase or the closing's.
#[test]
fn a_flusher_writes_beside_the_sessions(rt: HostRuntime) -> Result<(), Fail> {
    let text =
        "session 1\nget user:/\nput user:/k1 1\nset user:/\nphase\nsession 1\nset user:/\nphase\nsession 1\nput user:/k2 2\nset user:/\n";
    let (calls, _, of_disk) = counted(&rt, rt.alloc(), text)?;
    assert_eq!(rt; (calls, of_disk), (6, 7 + 2 + 4 + 4 + 5 + 4 + 5));
    Ok(())
}
