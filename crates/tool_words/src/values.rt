//! What `clap` makes of the words behind a command's word.
ghost use Rattle.std.specs.Prelude.{◌≡◌, true, false, IfOk, MatchOption, option_map};
ghost use Rattle.clap.specs.Words.{app_of, found_of, is_simple_and_free, rows_of};
ghost use Rattle.tool_words.specs.CommandLines.{given_value, is_set, refuses, value, values};
ghost use Rattle.tool_words.specs.RequestView.{texts_of};

use clap::error::ErrorKind;
use clap::{ArgMatches, Command};
use key_meta::Memory;
use std::alloc::AllocError;

/// The values that words give the arguments of a command. None where the command refuses the words.
pub fn values_in<'a>(
    command: Command<'a>,
    words: &'a [&'a str],
) -> Result<Option<ArgMatches<'a>>, Memory>
    requires { is_simple_and_free (app_of command) ≡ true }
    ensures { IfOk result (λ found. MatchOption found
        (refuses (app_of command.entry) (texts_of words.now) ≡ true)
        (λ given. (refuses (app_of command.entry) (texts_of words.now) ≡ false) × (rows_of (found_of given) ≡ values (app_of command.entry) (texts_of words.now)))) }
{
    match command.try_get_matches_from(words) {
        Ok(given) => Ok(Some(given)),
        Err(error) => {
            if error.kind() == ErrorKind::OutOfMemory {
                Err(AllocError)
            } else {
                Ok(None)
            }
        }
    }
}

/// The value of an argument that may be left out.
pub fn given_value<'a>(given: &ArgMatches<'a>, id: &str) -> Option<&'a str>
    ensures { option_map (λ text. text.now) result ≡ given_value id.now (rows_of (found_of given.now)) }
{
    given.get_str(id)
}

/// The value of an argument that may not, or of an option that has a default.
pub fn value_of<'a>(given: &ArgMatches<'a>, id: &str) -> &'a str
    ensures { result.now ≡ value id.now (rows_of (found_of given.now)) }
{
    match given_value(given, id) {
        Some(text) => text,
        // Words that leave it out are refused before.
        None => "",
    }
}

/// Whether an option is there that takes no word.
pub fn is_set(given: &ArgMatches<'_>, id: &str) -> bool
    ensures { result ≡ is_set id.now (rows_of (found_of given.now)) }
{
    value_of(given, id) == "true"
}
