//! What is asked for by words that are to be names.
ghost use Rattle.std.specs.Prelude.{◌≡◌, IfOk};
ghost use Rattle.std.specs.Option.{option_map};
ghost use Rattle.tool_words.specs.Request as asked;
ghost use Rattle.tool_words.specs.Request.{on_name, on_name_for, asks, asks_to_bring, asks_to_merge, asks_to_mount, asks_to_pass, on_strategy, passing};
ghost use Rattle.tool_words.specs.Lines.{argument};
ghost use Rattle.tool_words.specs.RequestView.{IsRead, IsSeenAs, action_of};
ghost use Rattle.tool_words.specs.declared.uses.Use.TheVariants.{Writes};

use crate::arguments::{MergeWords, MountWords};
use crate::extents::Extent;
use crate::flows::Flow;
use crate::requests::{Action, Named, Question, Refusal, Request};
use crate::uses::{Use, bars};
use crate::ways::Way;
use kdb_outside::Kind;
use key_merge::strategy_of;
use key_meta::Memory;
use key_name::{KeyName, NameFault};
use std::alloc::{AllocError, Global};

/// A word that is to be a name.
fn read_any_name<'a>(alloc: Global, word: &'a str) -> Result<Named<'a>, Memory>
    ensures { IfOk result (IsRead (on_name word.now)) }
{
    match KeyName::parse(alloc, word) {
        Ok(name) => Ok(Named::Is(name)),
        Err(fault) => match fault {
            NameFault::Memory => Err(AllocError),
            _ => Ok(Named::IsNone(Request::Refuses(Refusal::NoName(fault)))),
        },
    }
}

/// A word that is to be a name which can be used so.
fn read_name<'a>(alloc: Global, word: &'a str, by: Use) -> Result<Named<'a>, Memory>
    ensures { IfOk result (IsRead (on_name_for by word.now)) }
{
    match read_any_name(alloc, word)? {
        Named::Is(name) => {
            if bars(by, name.namespace()) {
                Ok(Named::IsNone(Request::Bars(name)))
            } else {
                Ok(Named::Is(name))
            }
        }
        Named::IsNone(request) => Ok(Named::IsNone(request)),
    }
}

/// An action on the key that a word is to name.
pub fn ask<'a>(
    alloc: Global,
    word: &'a str,
    by: Use,
    action: Action<'a>,
) -> Result<Request<'a>, Memory>
    ensures { IfOk result (λ read. IsSeenAs read (asks by (action_of action.entry) word.now)) }
{
    match read_name(alloc, word, by)? {
        Named::Is(name) => Ok(Request::Asks(Question::On { name, action })),
        Named::IsNone(request) => Ok(request),
    }
}

/// The file of the key that a word is to name.
pub fn ask_for_file<'a>(alloc: Global, word: &'a str) -> Result<Request<'a>, Memory>
    ensures { IfOk result (λ read. IsSeenAs read (on_name_for Writes word.now (λ name. asked.Asks (asked.FileOf name)))) }
{
    match read_name(alloc, word, Use::Writes)? {
        Named::Is(name) => Ok(Request::Asks(Question::FileOf(name))),
        Named::IsNone(request) => Ok(request),
    }
}

/// The rules that the keys at or below the name break which a word is to spell, whatever its namespace.
pub fn ask_for_violations<'a>(alloc: Global, word: &'a str) -> Result<Request<'a>, Memory>
    ensures { IfOk result (λ read. IsSeenAs read (on_name word.now (λ name. asked.Asks (asked.ViolationsOf name)))) }
{
    match read_any_name(alloc, word)? {
        Named::Is(name) => Ok(Request::Asks(Question::ViolationsOf(name))),
        Named::IsNone(request) => Ok(request),
    }
}

/// A file is mounted at the name that a word is to spell, in the format of another word.
pub fn ask_to_mount<'a>(alloc: Global, words: MountWords<'a>) -> Result<Request<'a>, Memory>
    ensures { IfOk result (λ read. IsSeenAs read (asks_to_mount words.entry.by_key words.entry.file.now words.entry.name.now (option_map (λ word. word.now) words.entry.plugin))) }
{
    let Some(word) = words.plugin else {
        return ask(alloc, words.name, Use::Writes, mounting(words, Kind::Dump));
    };
    match Kind::of(word) {
        Some(kind) => ask(alloc, words.name, Use::Writes, mounting(words, kind)),
        None => refuse_argument(alloc, words.name, Use::Writes, word),
    }
}

fn mounting<'a>(words: MountWords<'a>, kind: Kind) -> Action<'a>
    ensures { action_of result ≡ asked.MountFile words.entry.file.now kind words.entry.by_key }
{
    Action::MountFile {
        file: words.file,
        kind,
        by_key: words.by_key,
    }
}

/// Keys at or below the name that a word is to spell go out or come in, in the format of another word.
pub fn ask_to_pass<'a>(
    alloc: Global,
    name: &'a str,
    word: &'a str,
    flow: Flow,
) -> Result<Request<'a>, Memory>
    ensures { IfOk result (λ read. IsSeenAs read (asks_to_pass flow name.now word.now)) }
{
    match Kind::of(word) {
        Some(kind) => pass(alloc, name, kind, flow),
        None => refuse_argument(alloc, name, Use::Writes, word),
    }
}

/// Keys at or below the name that a word is to spell go out or come in, in a format.
fn pass<'a>(alloc: Global, name: &'a str, kind: Kind, flow: Flow) -> Result<Request<'a>, Memory>
    ensures { IfOk result (λ read. IsSeenAs read (on_name_for Writes name.now (λ at. passing flow at kind))) }
{
    match read_name(alloc, name, Use::Writes)? {
        Named::Is(name) => Ok(passed(name, kind, flow)),
        Named::IsNone(request) => Ok(request),
    }
}

fn passed<'a>(name: KeyName, kind: Kind, flow: Flow) -> Request<'a>
    ensures { IsSeenAs result (passing flow name kind) }
{
    match flow {
        Flow::Out => Request::Asks(Question::TextOf { name, kind }),
        Flow::In => Request::Imports { name, kind },
    }
}

/// Keys are brought from the name that a word spells to that of another word.
pub fn ask_to_bring<'a>(
    alloc: Global,
    from: &'a str,
    to: &'a str,
    way: Way,
    extent: Extent,
) -> Result<Request<'a>, Memory>
    ensures { IfOk result (λ read. IsSeenAs read (asks_to_bring way extent from.now to.now)) }
{
    match read_name(alloc, from, Use::Writes)? {
        Named::Is(name) => ask_to_bring_key(alloc, name, to, way, extent),
        Named::IsNone(request) => Ok(request),
    }
}

/// A key is brought to the name that a word is to spell.
fn ask_to_bring_key<'a>(
    alloc: Global,
    name: KeyName,
    to: &'a str,
    way: Way,
    extent: Extent,
) -> Result<Request<'a>, Memory>
    ensures { IfOk result (λ read. IsSeenAs read (on_name_for Writes to.now (λ other. asked.Asks (asked.On name (asked.Bring way extent other))))) }
{
    match read_name(alloc, to, Use::Writes)? {
        Named::Is(to) => {
            let action = Action::Bring { way, extent, to };
            Ok(Request::Asks(Question::On { name, action }))
        }
        Named::IsNone(request) => Ok(request),
    }
}

/// Keys at or below three names are merged into those of a fourth.
pub fn ask_to_merge<'a>(alloc: Global, words: MergeWords<'a>) -> Result<Request<'a>, Memory>
    ensures { IfOk result (λ read. IsSeenAs read (asks_to_merge words.entry.our.now words.entry.their.now words.entry.base.now words.entry.into.now words.entry.strategy.now)) }
{
    let our = match read_name(alloc, words.our, Use::Writes)? {
        Named::Is(name) => name,
        Named::IsNone(request) => return Ok(request),
    };
    let their = match read_name(alloc, words.their, Use::Writes)? {
        Named::Is(name) => name,
        Named::IsNone(request) => return Ok(request),
    };
    let base = match read_name(alloc, words.base, Use::Writes)? {
        Named::Is(name) => name,
        Named::IsNone(request) => return Ok(request),
    };
    ask_to_merge_into(alloc, words.into, our, their, base, words.strategy)
}

/// Keys at or below three names are merged into those of the name that a word is to spell.
fn ask_to_merge_into<'a>(
    alloc: Global,
    into: &'a str,
    our: KeyName,
    their: KeyName,
    base: KeyName,
    word: &'a str,
) -> Result<Request<'a>, Memory>
    ensures { IfOk result (λ read. IsSeenAs read (on_name_for Writes into.now (λ name. on_strategy word.now (λ strategy. asked.Asks (asked.On name (asked.Merge strategy our their base)))))) }
{
    match read_name(alloc, into, Use::Writes)? {
        Named::Is(name) => Ok(merging(name, our, their, base, word)),
        Named::IsNone(request) => Ok(request),
    }
}

/// Keys are merged by the strategy of a word.
fn merging<'a>(
    name: KeyName,
    our: KeyName,
    their: KeyName,
    base: KeyName,
    word: &'a str,
) -> Request<'a>
    ensures { IsSeenAs result (on_strategy word.now (λ strategy. asked.Asks (asked.On name (asked.Merge strategy our their base)))) }
{
    match strategy_of(word) {
        Some(strategy) => {
            let action = Action::Merge {
                strategy,
                our,
                their,
                base,
            };
            Request::Asks(Question::On { name, action })
        }
        None => Request::Refuses(Refusal::NoArgument(word)),
    }
}

/// A word is no metadata name, or no format's word. What is wrong with the name before it is told first.
pub fn refuse_argument<'a>(
    alloc: Global,
    name: &'a str,
    by: Use,
    word: &'a str,
) -> Result<Request<'a>, Memory>
    ensures { IfOk result (λ read. IsSeenAs read (on_name_for by name.now (λ _. asked.Refuses 2 (argument word.now)))) }
{
    match read_name(alloc, name, by)? {
        Named::Is(_name) => Ok(Request::Refuses(Refusal::NoArgument(word))),
        Named::IsNone(request) => Ok(request),
    }
}
