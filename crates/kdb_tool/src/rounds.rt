//! What a generated run is asked for: its words are read.
ghost use Rattle.std.specs.Prelude.{◌≡◌, IfOk, drop};
ghost use Rattle.kdb_tool.specs.Generating.{IsFit, IsWanted};
ghost use Rattle.kdb_tool.specs.Rounds.{rounds_behind, rounds_in, rounds_of};
ghost use Rattle.tool_words.specs.RequestView.{texts_of};

use crate::one_word::only_argument;
use batch_script::count_of;
use kdb_gen::MOST_ROUNDS;
use key_meta::{Memory, Text};
use std::alloc::Global;
use tool_commands::{Report, warn_of_words};
use tool_words::{Refusal, lend_words};

/// What is wanted: to play so many rounds, or what is told in their place.
#[derive(Drop)]
pub enum Wanted {
    Play(u32),
    Refuse(Report),
}

/// Reads the words of a command line.
pub fn read_rounds(alloc: Global, words: &[Text]) -> Result<Wanted, Memory>
    ensures read { IfOk result (IsWanted (rounds_in words.now)) }
    ensures fit { IfOk result IsFit }
{
    let lent = lend_words(alloc, words)?;
    match lent.split_first() {
        Some((_, behind)) => read_behind(alloc, behind),
        None => read_behind(alloc, &lent),
    }
}

/// Reads the words behind the first.
fn read_behind(alloc: Global, words: &[&str]) -> Result<Wanted, Memory>
    ensures read { IfOk result (IsWanted (rounds_behind (texts_of words.now))) }
    ensures fit { IfOk result IsFit }
{
    match only_argument(alloc, words)? {
        Some(word) => read_number(alloc, word),
        None => Ok(Wanted::Refuse(warn_of_words(alloc, Refusal::OptionsRefused)?)),
    }
}

/// Reads the word that is to be their number.
fn read_number(alloc: Global, word: &str) -> Result<Wanted, Memory>
    ensures read { IfOk result (IsWanted (rounds_of word.now)) }
    ensures fit { IfOk result IsFit }
{
    match count_of(MOST_ROUNDS, word) {
        Some(rounds) => Ok(Wanted::Play(rounds)),
        None => Ok(Wanted::Refuse(warn_of_words(alloc, Refusal::NoArgument(word))?)),
    }
}
