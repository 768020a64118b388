//! Sessions beside each other that all store in one file.
use crate::disks::{disk_with_a_mount, keys_of};
use crate::sessions::play;
use batch_run::Played;
use disk_memory::MemDisk;
use kdb_outside::OpenGate;
use key_set::KeySet;
use regex_check::RegexPatterns;
use std::alloc::Global;
use std::sync::Wait;
use std::test::*;
use std::thread::Threads;
use store_core::Closed;

/// A session gets once, and then in each of so many turns gives a key of its own the turn's number and stores it by a
/// step.
fn push_session(
    alloc: Global,
    text: &mut String,
    session: u32,
    turns: u32,
    step: &str,
) -> Result<(), Fail> {
    text.push_str(&format!(in alloc; "session {session}\nget user:/m\n")?)?;
    for turn in 1..=turns {
        text.push_str(&format!(in alloc; "put user:/m/s{session} {turn}\n{step}\n")?)?;
    }
    Ok(())
}

/// A phase of 32 such sessions.
fn phase_of(alloc: Global, turns: u32, step: &str) -> Result<String, Fail> {
    let mut text = String::new(alloc);
    for session in 1..=32 {
        push_session(alloc, &mut text, session, turns, step)?;
    }
    Ok(text)
}

/// How many commits 32 such sessions come to, and how many keys all files have behind them, where these are the
/// history's.
fn stored<R: Threads + Wait + Sync>(
    rt: &R,
    alloc: Global,
    by_key: bool,
    turns: u32,
    step: &str,
) -> Result<(u64, Option<usize>), Fail> {
    let start = keys_of(alloc, disk_with_a_mount(alloc, by_key)?)?;
    let text = phase_of(alloc, turns, step)?;
    let disk = disk_with_a_mount(alloc, by_key)?;
    let Played { closed, .. } = play(rt, alloc, disk, &OpenGate, &text).ok_or("it is played")?;
    told_of(alloc, &start, closed)
}

/// How many commits a store has that was closed, and how many keys all its files, where these are the history's from
/// some keys on.
fn told_of(
    alloc: Global,
    start: &KeySet,
    closed: Closed<MemDisk, RegexPatterns>,
) -> Result<(u64, Option<usize>), Fail> {
    let commits = closed.history.len();
    let replayed = closed.history.replay(start, commits)?;
    let count = replayed.len();
    let is_the_historys = keys_of(alloc, closed.disk)? == replayed;
    Ok((commits, if is_the_historys { Some(count) } else { None }))
}

/// Nobody gets again, and each set is a commit. Two keys are the table's.
#[test]
fn sets_of_32_sessions_in_a_file_by_key_meet_no_conflict(rt: HostRuntime) -> Result<(), Fail> {
    assert_eq!(rt;
        stored(&rt, rt.alloc(), true, 20, "set user:/m")?,
        (640, Some(32 + 2))
    );
    Ok(())
}

/// No commit is lost, and none of a session's keys. One key is the table's.
#[test]
fn each_merge_of_32_sessions_in_a_file_by_its_backend_is_stored(
    rt: HostRuntime,
) -> Result<(), Fail> {
    let step = "merge user:/m our 1000";
    assert_eq!(rt;
        stored(&rt, rt.alloc(), false, 10, step)?,
        (320, Some(32 + 1))
    );
    Ok(())
}
