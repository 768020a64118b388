//! The script of a generated run.
ghost use Rattle.std.specs.Prelude.{◌≡◌, ◌≤◌, ◌++◌, IfOk, OnOk};
ghost use Rattle.kdb_gen.specs.Generated.{gen_script, most_rounds, round_of, sessions, steps_of, tries_of};

use crate::keys::{key_of, user_root};
use batch_script::{Phase, Script, Step, Steps, Tries};
use key_merge::Strategy;
use key_meta::{List, Memory, Text};
use std::alloc::Global;

/// The most rounds of a generated run.
pub const MOST_ROUNDS: u32 = 1_000;

/// The sessions are numbered from 1 on.
pub const SESSIONS: u32 = 4;

/// The script of so many rounds: in each of them each session writes one of its keys and merges its set into the store.
pub fn gen_script(alloc: Global, rounds: u32) -> Result<Script, Memory>
    requires some { 1 ≤ rounds }
    requires limit { rounds ≤ most_rounds }
    ensures { IfOk result (λ script. script ≡ gen_script rounds) }
{
    let mut sessions = Vec::with_capacity(alloc, SESSIONS as usize)?;
    for session in 1..=SESSIONS {
        let steps = List::from_vec(steps_of(alloc, rounds, session)?);
        sessions.push(Steps { session, steps })?;
    }
    let mut phases = Vec::with_capacity(alloc, 1)?;
    let sessions = List::from_vec(sessions);
    phases.push(Phase { sessions })?;
    Ok(Script {
        proc: List::from_vec(Vec::new(alloc)),
        phases: List::from_vec(phases),
    })
}

/// The steps of a session.
fn steps_of(alloc: Global, rounds: u32, session: u32) -> Result<Vec<Step>, Memory>
    requires limit { rounds ≤ most_rounds }
    requires first { 1 ≤ session }
    requires last { session ≤ sessions }
    ensures { IfOk result (λ steps. steps.items ≡ steps_of rounds session) }
{
    let mut steps = Vec::with_capacity(alloc, 2 * rounds as usize + 1)?;
    steps.push(Step::Get {
        parent: user_root(alloc),
    })?;
    for round in 1..=rounds {
        push_round(alloc, &mut steps, rounds, session, round)?;
    }
    Ok(steps)
}

/// Adds the steps of a round.
fn push_round(
    alloc: Global,
    steps: &mut Vec<Step>,
    rounds: u32,
    session: u32,
    round: u32,
) -> Result<(), Memory>
    requires limit { rounds ≤ most_rounds }
    requires within { round ≤ rounds }
    requires first { 1 ≤ session }
    requires last { session ≤ sessions }
    ensures { OnOk result (steps.new.items ≡ steps.old.items ++ round_of rounds session round) }
{
    let name = key_of(alloc, session, round)?;
    let number = round * session;
    let value = Text::new(alloc, format!(in alloc; "{number}")?.as_str())?;
    steps.push(Step::Put { name, value })?;
    steps.push(Step::Merge {
        parent: user_root(alloc),
        strategy: Strategy::Our,
        tries: tries_of(rounds),
    })?;
    Ok(())
}

/// How often a merge is tried: more often than there are commits of other sessions.
fn tries_of(rounds: u32) -> Tries
    requires limit { rounds ≤ most_rounds }
    ensures { result ≡ tries_of rounds }
{
    match Tries::new(SESSIONS * rounds + 1) {
        Some(tries) => tries,
        None => unreachable!(),
    }
}
