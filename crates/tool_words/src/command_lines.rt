//! The commands as `clap` sees them: an argument for each place, and perhaps an option.
ghost use Rattle.std.specs.Prelude.{◌≡◌, false, IfOk};
ghost use Rattle.clap.specs.Words.{app_of, rule_of, with_rule};
ghost use Rattle.tool_words.specs.CommandLines as line;

use clap::{Arg, ArgAction, Command};
use key_meta::Memory;
use std::alloc::Global;

/// A command without arguments.
pub fn no_arguments<'a>(alloc: Global) -> Command<'a>
    ensures { app_of result ≡ line.no_arguments }
{
    Command::new(alloc, "kdb")
        .no_binary_name(true)
        .disable_help_flag(true)
}

pub fn one_argument<'a>(alloc: Global) -> Result<Command<'a>, Memory>
    ensures { IfOk result (λ made. app_of made ≡ line.one_argument) }
{
    with(no_arguments(alloc), required(alloc, "1"))
}

pub fn two_arguments<'a>(alloc: Global) -> Result<Command<'a>, Memory>
    ensures { IfOk result (λ made. app_of made ≡ line.two_arguments) }
{
    with(one_argument(alloc)?, required(alloc, "2"))
}

pub fn three_arguments<'a>(alloc: Global) -> Result<Command<'a>, Memory>
    ensures { IfOk result (λ made. app_of made ≡ line.three_arguments) }
{
    with(two_arguments(alloc)?, required(alloc, "3"))
}

/// The third argument may be left out, and the option `-k`.
pub fn two_or_three_by_key<'a>(alloc: Global) -> Result<Command<'a>, Memory>
    ensures { IfOk result (λ made. app_of made ≡ line.two_or_three_by_key) }
{
    let three = with(two_arguments(alloc)?, optional(alloc, "3"))?;
    with(three, by_key(alloc))
}

/// One argument, and the option `-r`.
pub fn one_extended<'a>(alloc: Global) -> Result<Command<'a>, Memory>
    ensures { IfOk result (λ made. app_of made ≡ line.one_extended) }
{
    with(one_argument(alloc)?, recursive(alloc))
}

/// Two arguments, and the option `-r`.
pub fn two_extended<'a>(alloc: Global) -> Result<Command<'a>, Memory>
    ensures { IfOk result (λ made. app_of made ≡ line.two_extended) }
{
    with(two_arguments(alloc)?, recursive(alloc))
}

/// Four arguments, and the option `-s`.
pub fn four_by_strategy<'a>(alloc: Global) -> Result<Command<'a>, Memory>
    ensures { IfOk result (λ made. app_of made ≡ line.four_by_strategy) }
{
    let four = with(three_arguments(alloc)?, required(alloc, "4"))?;
    with(four, strategy(alloc))
}

/// A command with one argument or option more.
fn with<'a>(command: Command<'a>, arg: Arg<'a>) -> Result<Command<'a>, Memory>
    requires { arg.global ≡ false }
    ensures { IfOk result (λ made. app_of made ≡ with_rule (app_of command.entry) (rule_of arg.entry)) }
{
    command.arg(arg)
}

/// An argument that may not be left out.
fn required<'a>(alloc: Global, id: &'a str) -> Arg<'a>
    ensures rule { rule_of result ≡ line.required id.entry.now }
    ensures local { result.global ≡ false }
{
    Arg::new(alloc, id).required(true)
}

/// An argument that may be left out.
fn optional<'a>(alloc: Global, id: &'a str) -> Arg<'a>
    ensures rule { rule_of result ≡ line.optional id.entry.now }
    ensures local { result.global ≡ false }
{
    Arg::new(alloc, id)
}

/// The option `-r`.
fn recursive<'a>(alloc: Global) -> Arg<'a>
    ensures rule { rule_of result ≡ line.recursive }
    ensures local { result.global ≡ false }
{
    Arg::new(alloc, "r").short('r').action(ArgAction::SetTrue)
}

/// The option `-k`.
fn by_key<'a>(alloc: Global) -> Arg<'a>
    ensures rule { rule_of result ≡ line.by_key }
    ensures local { result.global ≡ false }
{
    Arg::new(alloc, "k").short('k').action(ArgAction::SetTrue)
}

/// The option `-s`, which takes a word.
fn strategy<'a>(alloc: Global) -> Arg<'a>
    ensures rule { rule_of result ≡ line.strategy }
    ensures local { result.global ≡ false }
{
    Arg::new(alloc, "s").short('s').default_value("abort")
}
