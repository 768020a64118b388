//! The arguments behind a command's word, as many as the command takes, and which keys it is for.
ghost use Rattle.std.specs.Prelude.{◌≡◌, ℕ, Bool, List, Option, not, IfOk, MatchOption};
ghost use Rattle.std.specs.Option.{option_map};
ghost use Rattle.clap.specs.Words.{found_of, rows_of};
ghost use Rattle.tool_words.specs.CommandLines.{no_arguments, refuses};
ghost use Rattle.tool_words.specs.Lines.{options_refused};
ghost use Rattle.tool_words.specs.Request.{Request, Refuses, extent_in, on_one, on_two, on_three, on_two_or_three_by_key, on_one_extended, on_two_extended, on_four_by_strategy};
ghost use Rattle.tool_words.specs.RequestView.{texts_of};

use crate::command_lines::{
    four_by_strategy, no_arguments, one_argument, one_extended, three_arguments, two_arguments,
    two_extended, two_or_three_by_key,
};
use crate::extents::Extent;
use crate::values::{given_value, is_set, value_of, values_in};
use clap::ArgMatches;
use key_meta::Memory;
use std::alloc::Global;

/// Whether there are no arguments.
pub fn are_none(alloc: Global, words: &[&str]) -> Result<bool, Memory>
    ensures { IfOk result (λ none. none ≡ not (refuses no_arguments (texts_of words.now))) }
{
    match values_in(no_arguments(alloc), words)? {
        Some(_) => Ok(true),
        None => Ok(false),
    }
}

/// The argument, where it is the only one.
pub fn one<'a>(alloc: Global, words: &'a [&'a str]) -> Result<Option<&'a str>, Memory>
    ensures { IfOk result (λ found. MatchOption found
        ((take : List ℕ → Request) → on_one take (texts_of words.now) ≡ Refuses 1 options_refused)
        (λ all. (take : List ℕ → Request) → on_one take (texts_of words.now) ≡ take all.now)) }
{
    match values_in(one_argument(alloc)?, words)? {
        Some(given) => Ok(Some(value_of(&given, "1"))),
        None => Ok(None),
    }
}

/// The arguments, where they are two.
pub fn two<'a>(alloc: Global, words: &'a [&'a str]) -> Result<Option<(&'a str, &'a str)>, Memory>
    ensures { IfOk result (λ found. MatchOption found
        ((take : List ℕ → List ℕ → Request) → on_two take (texts_of words.now) ≡ Refuses 1 options_refused)
        (λ all. (take : List ℕ → List ℕ → Request) → on_two take (texts_of words.now) ≡ take all.0.now all.1.now)) }
{
    match values_in(two_arguments(alloc)?, words)? {
        Some(given) => Ok(Some((value_of(&given, "1"), value_of(&given, "2")))),
        None => Ok(None),
    }
}

/// The arguments, where they are three.
pub fn three<'a>(
    alloc: Global,
    words: &'a [&'a str],
) -> Result<Option<(&'a str, &'a str, &'a str)>, Memory>
    ensures { IfOk result (λ found. MatchOption found
        ((take : List ℕ → List ℕ → List ℕ → Request) → on_three take (texts_of words.now) ≡ Refuses 1 options_refused)
        (λ all. (take : List ℕ → List ℕ → List ℕ → Request) → on_three take (texts_of words.now) ≡ take all.0.now all.1.now all.2.now)) }
{
    match values_in(three_arguments(alloc)?, words)? {
        Some(given) => Ok(Some((
            value_of(&given, "1"),
            value_of(&given, "2"),
            value_of(&given, "3"),
        ))),
        None => Ok(None),
    }
}

/// The words behind `mount`, and whether `-k` is among them.
#[derive(Clone, Copy)]
pub struct MountWords<'a> {
    pub by_key: bool,
    pub file: &'a str,
    pub name: &'a str,
    pub plugin: Option<&'a str>,
}

/// The arguments, where they are two or three, and whether the option `-k` is there.
pub fn two_or_three_and_by_key<'a>(
    alloc: Global,
    words: &'a [&'a str],
) -> Result<Option<MountWords<'a>>, Memory>
    ensures { IfOk result (λ found. MatchOption found
        ((take : Bool → List ℕ → List ℕ → Option (List ℕ) → Request) → on_two_or_three_by_key take (texts_of words.now) ≡ Refuses 1 options_refused)
        (λ all. (take : Bool → List ℕ → List ℕ → Option (List ℕ) → Request) → on_two_or_three_by_key take (texts_of words.now) ≡ take all.by_key all.file.now all.name.now (option_map (λ word. word.now) all.plugin))) }
{
    match values_in(two_or_three_by_key(alloc)?, words)? {
        Some(given) => Ok(Some(MountWords {
            by_key: is_set(&given, "k"),
            file: value_of(&given, "1"),
            name: value_of(&given, "2"),
            plugin: given_value(&given, "3"),
        })),
        None => Ok(None),
    }
}

/// The argument, where it is the only one, and which keys the command is for.
pub fn one_and_extent<'a>(
    alloc: Global,
    words: &'a [&'a str],
) -> Result<Option<(Extent, &'a str)>, Memory>
    ensures { IfOk result (λ found. MatchOption found
        ((take : Extent → List ℕ → Request) → on_one_extended take (texts_of words.now) ≡ Refuses 1 options_refused)
        (λ all. (take : Extent → List ℕ → Request) → on_one_extended take (texts_of words.now) ≡ take all.0 all.1.now)) }
{
    match values_in(one_extended(alloc)?, words)? {
        Some(given) => Ok(Some((extent_in(&given), value_of(&given, "1")))),
        None => Ok(None),
    }
}

/// The arguments, where they are two, and which keys the command is for.
pub fn two_and_extent<'a>(
    alloc: Global,
    words: &'a [&'a str],
) -> Result<Option<(Extent, &'a str, &'a str)>, Memory>
    ensures { IfOk result (λ found. MatchOption found
        ((take : Extent → List ℕ → List ℕ → Request) → on_two_extended take (texts_of words.now) ≡ Refuses 1 options_refused)
        (λ all. (take : Extent → List ℕ → List ℕ → Request) → on_two_extended take (texts_of words.now) ≡ take all.0 all.1.now all.2.now)) }
{
    match values_in(two_extended(alloc)?, words)? {
        Some(given) => Ok(Some((
            extent_in(&given),
            value_of(&given, "1"),
            value_of(&given, "2"),
        ))),
        None => Ok(None),
    }
}

/// The words behind `merge`.
#[derive(Clone, Copy)]
pub struct MergeWords<'a> {
    pub our: &'a str,
    pub their: &'a str,
    pub base: &'a str,
    pub into: &'a str,
    pub strategy: &'a str,
}

/// The arguments, where they are four, and the strategy.
pub fn four_and_strategy<'a>(
    alloc: Global,
    words: &'a [&'a str],
) -> Result<Option<MergeWords<'a>>, Memory>
    ensures { IfOk result (λ found. MatchOption found
        ((take : List ℕ → List ℕ → List ℕ → List ℕ → List ℕ → Request) → on_four_by_strategy take (texts_of words.now) ≡ Refuses 1 options_refused)
        (λ all. (take : List ℕ → List ℕ → List ℕ → List ℕ → List ℕ → Request) → on_four_by_strategy take (texts_of words.now) ≡ take all.our.now all.their.now all.base.now all.into.now all.strategy.now)) }
{
    match values_in(four_by_strategy(alloc)?, words)? {
        Some(given) => Ok(Some(MergeWords {
            our: value_of(&given, "1"),
            their: value_of(&given, "2"),
            base: value_of(&given, "3"),
            into: value_of(&given, "4"),
            strategy: value_of(&given, "s"),
        })),
        None => Ok(None),
    }
}

/// Which keys the command is for.
fn extent_in(given: &ArgMatches<'_>) -> Extent
    ensures { result ≡ extent_in (rows_of (found_of given.now)) }
{
    if is_set(given, "r") {
        Extent::WithBelow
    } else {
        Extent::Alone
    }
}
