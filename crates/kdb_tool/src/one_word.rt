//! The one argument of a command line, as `clap` takes it.
ghost use Rattle.std.specs.Prelude.{◌≡◌, true, false, IfOk, MatchOption, codes};
ghost use Rattle.std.specs.Option.{option_map};
ghost use Rattle.clap.specs.Words.{app_of, found_of, is_simple_and_free, rule_of, rows_of};
ghost use Rattle.kdb_tool.specs.Rounds.{only_argument};
ghost use Rattle.tool_words.specs.CommandLines as line;
ghost use Rattle.tool_words.specs.CommandLines.{given_value, refuses, value, values};
ghost use Rattle.tool_words.specs.RequestView.{texts_of};

use clap::error::ErrorKind;
use clap::{Arg, ArgMatches, Command};
use key_meta::Memory;
use std::alloc::{AllocError, Global};

/// The argument, where it is the only one.
pub fn only_argument<'a>(alloc: Global, words: &'a [&'a str]) -> Result<Option<&'a str>, Memory>
    ensures { IfOk result (λ found. option_map (λ word. word.now) found ≡ only_argument (texts_of words.now)) }
{
    match values_in(one_argument(alloc)?, words)? {
        Some(given) => Ok(Some(value_of(&given))),
        None => Ok(None),
    }
}

/// The values that words give the argument of a command. None where the command refuses the words.
fn values_in<'a>(
    command: Command<'a>,
    words: &'a [&'a str],
) -> Result<Option<ArgMatches<'a>>, Memory>
    requires { is_simple_and_free (app_of command) ≡ true }
    ensures { IfOk result (λ found. MatchOption found
        (refuses (app_of command.entry) (texts_of words.now) ≡ true)
        (λ given. (refuses (app_of command.entry) (texts_of words.now) ≡ false) × (rows_of (found_of given) ≡ values (app_of command.entry) (texts_of words.now)))) }
{
    match command.try_get_matches_from(words) {
        Ok(given) => Ok(Some(given)),
        Err(error) => {
            if error.kind() == ErrorKind::OutOfMemory {
                Err(AllocError)
            } else {
                Ok(None)
            }
        }
    }
}

/// A command of one argument.
fn one_argument<'a>(alloc: Global) -> Result<Command<'a>, Memory>
    ensures { IfOk result (λ made. app_of made ≡ line.one_argument) }
{
    no_arguments(alloc).arg(required(alloc))
}

/// A command without arguments.
fn no_arguments<'a>(alloc: Global) -> Command<'a>
    ensures { app_of result ≡ line.no_arguments }
{
    Command::new(alloc, "kdb")
        .no_binary_name(true)
        .disable_help_flag(true)
}

/// An argument that may not be left out.
fn required<'a>(alloc: Global) -> Arg<'a>
    ensures rule { rule_of result ≡ line.required (codes "1") }
    ensures local { result.global ≡ false }
{
    Arg::new(alloc, "1").required(true)
}

/// Its value.
fn value_of<'a>(given: &ArgMatches<'a>) -> &'a str
    ensures { result.now ≡ value (codes "1") (rows_of (found_of given.now)) }
{
    match given_value(given) {
        Some(text) => text,
        // words that leave it out are refused before
        None => "",
    }
}

/// Its value, where it is there.
fn given_value<'a>(given: &ArgMatches<'a>) -> Option<&'a str>
    ensures { option_map (λ text. text.now) result ≡ given_value (codes "1") (rows_of (found_of given.now)) }
{
    given.get_str("1")
}
