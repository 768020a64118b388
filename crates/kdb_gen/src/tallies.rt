//! What the keys of a generated run come to.
ghost use Rattle.std.specs.Prelude.{◌≡◌, ◌≤◌, ◌+◌, ◌*◌, ◌∷◌, ◌++◌, [], min, sum, IfOk, OnOk, string_bytes};
ghost use Rattle.std.specs.Bool.{Decides};
ghost use Rattle.std.specs.List.{range_with_len};
ghost use Rattle.kdb_gen.specs.Generated.{keys_of_session, most_rounds, sessions};
ghost use Rattle.kdb_gen.specs.Tallies.{counted, last_rounds, summary, tally_of};
ghost use Rattle.model_lines.specs.Lines.{ended};

use crate::keys::KEYS_OF_SESSION;
use crate::scripts::SESSIONS;
use key_meta::Memory;
use std::alloc::Global;

/// How many commits a run made, how many keys its sessions have at the end, and what their values sum up to.
#[derive(Drop)]
pub struct Tally {
    pub commits: u64,
    pub keys: u64,
    pub sum: u64,
}

impl Tally {
    pub fn same(&self, other: &Tally) -> bool
        ensures { Decides result (self.now ≡ other.now) }
    {
        self.commits == other.commits && self.keys == other.keys && self.sum == other.sum
    }
}

/// What so many rounds come to.
pub fn tally_of(rounds: u32) -> Tally
    requires { rounds ≤ most_rounds }
    ensures { result ≡ tally_of rounds }
{
    let sessions = SESSIONS as u64;
    Tally {
        commits: sessions * rounds as u64,
        keys: sessions * keys_of_session(rounds) as u64,
        sum: sum_of_sessions() * sum_of_last(rounds),
    }
}

/// How many keys a session has written.
fn keys_of_session(rounds: u32) -> u32
    ensures { result ≡ min rounds keys_of_session }
{
    rounds.min(KEYS_OF_SESSION)
}

/// The sum of the sessions' numbers.
fn sum_of_sessions() -> u64
    ensures { result ≡ sum (range_with_len 1 sessions) }
{
    let sessions = SESSIONS as u64;
    sessions * (sessions + 1) / 2
}

/// The sum of the rounds in which a session writes its keys for the last time.
fn sum_of_last(rounds: u32) -> u64
    requires { rounds ≤ most_rounds }
    ensures sum { result ≡ sum (last_rounds rounds) }
    ensures limit { result ≤ most_rounds * (rounds + 1) }
{
    let mut sum: u64 = 0;
    for round in rounds + 1 - keys_of_session(rounds)..=rounds {
        sum += round as u64;
    }
    sum
}

/// The summary of a run of so many rounds.
pub fn summary(alloc: Global, rounds: u32, tally: &Tally) -> Result<String, Memory>
    ensures { IfOk result (λ text. string_bytes text ≡ summary rounds tally.now) }
{
    let mut text = String::new(alloc);
    push_line(alloc, &mut text, "gen", rounds as u64)?;
    push_line(alloc, &mut text, "sessions", SESSIONS as u64)?;
    push_line(alloc, &mut text, "commits", tally.commits)?;
    push_line(alloc, &mut text, "keys", tally.keys)?;
    push_line(alloc, &mut text, "sum", tally.sum)?;
    Ok(text)
}

/// Adds a line of a word and a number.
fn push_line(alloc: Global, text: &mut String, word: &str, number: u64) -> Result<(), Memory>
    ensures { OnOk result (string_bytes text.new ≡ string_bytes text.old ++ ended (counted word.now number ∷ [])) }
{
    let line = format!(in alloc; "{word} {number}\n")?;
    text.push_str(line.as_str())
}
