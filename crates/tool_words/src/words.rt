//! What the words of a command line ask for.
ghost use Rattle.std.specs.Prelude.{◌≡◌, IfOk};
ghost use Rattle.tool_words.specs.Request as asked;
ghost use Rattle.tool_words.specs.Request.{on_none, on_one, on_two, on_three, on_two_or_three_by_key, on_one_extended, on_two_extended, on_four_by_strategy, on_name, on_name_for, on_meta, asks, asks_to_bring, asks_to_merge, asks_to_mount, asks_to_pass};
ghost use Rattle.tool_words.specs.Rows.{asked_by, request, rows};
ghost use Rattle.tool_words.specs.RequestView.{IsSeenAs, action_of, texts_of};
ghost use Rattle.tool_words.specs.declared.uses.Use.TheVariants.{Looks, Writes};

use crate::arguments::{
    are_none, four_and_strategy, one, one_and_extent, three, two, two_and_extent,
    two_or_three_and_by_key,
};
use crate::asking::{
    ask, ask_for_file, ask_for_violations, ask_to_bring, ask_to_merge, ask_to_mount, ask_to_pass,
    refuse_argument,
};
use crate::extents::Extent;
use crate::flows::Flow;
use crate::meta_names::MetaName;
use crate::requests::{Action, Question, Refusal, Request};
use crate::uses::Use;
use crate::ways::Way;
use key_meta::{Memory, Text};
use std::alloc::Global;

/// Words as they are read.
pub fn lend_words<'a>(alloc: Global, words: &'a [Text]) -> Result<Vec<&'a str>, Memory>
    ensures { IfOk result (λ lent. texts_of lent.items ≡ words.now) }
{
    let mut lent = Vec::new(alloc);
    for word in words {
        lent.push(word.as_str())?;
    }
    Ok(lent)
}

/// Reads the words, which come without the program's name.
pub fn read_words<'a>(alloc: Global, words: &'a [&'a str]) -> Result<Request<'a>, Memory>
    ensures { IfOk result (λ read. IsSeenAs read (request (texts_of words.now))) }
{
    match words.split_first() {
        Some((command, words)) => read_behind(alloc, *command, words),
        None => Ok(Request::Refuses(Refusal::NoCommand)),
    }
}

/// Reads the words behind a command's word.
fn read_behind<'a>(
    alloc: Global,
    command: &'a str,
    words: &'a [&'a str],
) -> Result<Request<'a>, Memory>
    ensures { IfOk result (λ read. IsSeenAs read (asked_by rows command.now (texts_of words.now))) }
{
    match command {
        "get" => read_one(alloc, words, Use::Looks, Action::Get),
        "set" => read_name_and_value(alloc, words),
        "rm" => read_removal(alloc, words),
        "ls" => read_one(alloc, words, Use::Looks, Action::Names),
        "meta-get" => read_meta(alloc, words),
        "meta-set" => read_meta_and_text(alloc, words),
        "meta-ls" => read_one(alloc, words, Use::Looks, Action::MetaNames),
        "cp" => read_bringing(alloc, words, Way::Copies),
        "mv" => read_bringing(alloc, words, Way::Moves),
        "mount" => read_mounting(alloc, words),
        "umount" => read_one(alloc, words, Use::Writes, Action::Unmount),
        "mounts" => read_none(alloc, words),
        "file" => read_file_name(alloc, words),
        "export" => read_passing(alloc, words, Flow::Out),
        "import" => read_passing(alloc, words, Flow::In),
        "validate" => read_validation(alloc, words),
        "merge" => read_merging(alloc, words),
        _ => Ok(Request::Refuses(Refusal::UnknownCommand(command))),
    }
}

/// The words behind a command that takes a name and no option.
fn read_one<'a>(
    alloc: Global,
    words: &'a [&'a str],
    by: Use,
    action: Action<'a>,
) -> Result<Request<'a>, Memory>
    ensures { IfOk result (λ read. IsSeenAs read (on_one (asks by (action_of action.entry)) (texts_of words.now))) }
{
    let Some(name) = one(alloc, words)? else {
        return Ok(Request::Refuses(Refusal::OptionsRefused));
    };
    ask(alloc, name, by, action)
}

/// The words behind `set`.
fn read_name_and_value<'a>(alloc: Global, words: &'a [&'a str]) -> Result<Request<'a>, Memory>
    ensures { IfOk result (λ read. IsSeenAs read (on_two (λ word value. asks Writes (asked.Set value) word) (texts_of words.now))) }
{
    let Some((name, value)) = two(alloc, words)? else {
        return Ok(Request::Refuses(Refusal::OptionsRefused));
    };
    ask(alloc, name, Use::Writes, Action::Set(value))
}

/// The words behind `rm`.
fn read_removal<'a>(alloc: Global, words: &'a [&'a str]) -> Result<Request<'a>, Memory>
    ensures { IfOk result (λ read. IsSeenAs read (on_one_extended (λ extent. asks Writes (asked.Remove extent)) (texts_of words.now))) }
{
    let Some((extent, name)) = one_and_extent(alloc, words)? else {
        return Ok(Request::Refuses(Refusal::OptionsRefused));
    };
    ask(alloc, name, Use::Writes, Action::Remove(extent))
}

/// The words behind `meta-get`.
fn read_meta<'a>(alloc: Global, words: &'a [&'a str]) -> Result<Request<'a>, Memory>
    ensures { IfOk result (λ read. IsSeenAs read (on_two (λ word meta. on_name_for Looks word (λ name. on_meta meta (asked.Asks (asked.On name (asked.GetMeta meta))))) (texts_of words.now))) }
{
    let Some((name, word)) = two(alloc, words)? else {
        return Ok(Request::Refuses(Refusal::OptionsRefused));
    };
    match MetaName::new(word) {
        Some(meta) => ask(alloc, name, Use::Looks, Action::GetMeta(meta)),
        None => refuse_argument(alloc, name, Use::Looks, word),
    }
}

/// The words behind `meta-set`.
fn read_meta_and_text<'a>(alloc: Global, words: &'a [&'a str]) -> Result<Request<'a>, Memory>
    ensures { IfOk result (λ read. IsSeenAs read (on_three (λ word meta text. on_name_for Writes word (λ name. on_meta meta (asked.Asks (asked.On name (asked.SetMeta meta text))))) (texts_of words.now))) }
{
    let Some((name, word, text)) = three(alloc, words)? else {
        return Ok(Request::Refuses(Refusal::OptionsRefused));
    };
    match MetaName::new(word) {
        Some(meta) => ask(alloc, name, Use::Writes, Action::SetMeta(meta, text)),
        None => refuse_argument(alloc, name, Use::Writes, word),
    }
}

/// The words behind `cp` and `mv`.
fn read_bringing<'a>(alloc: Global, words: &'a [&'a str], way: Way) -> Result<Request<'a>, Memory>
    ensures { IfOk result (λ read. IsSeenAs read (on_two_extended (asks_to_bring way) (texts_of words.now))) }
{
    let Some((extent, from, to)) = two_and_extent(alloc, words)? else {
        return Ok(Request::Refuses(Refusal::OptionsRefused));
    };
    ask_to_bring(alloc, from, to, way, extent)
}

/// The words behind `mount`.
fn read_mounting<'a>(alloc: Global, words: &'a [&'a str]) -> Result<Request<'a>, Memory>
    ensures { IfOk result (λ read. IsSeenAs read (on_two_or_three_by_key asks_to_mount (texts_of words.now))) }
{
    let Some(words) = two_or_three_and_by_key(alloc, words)? else {
        return Ok(Request::Refuses(Refusal::OptionsRefused));
    };
    ask_to_mount(alloc, words)
}

/// The words behind `mounts`.
fn read_none<'a>(alloc: Global, words: &'a [&'a str]) -> Result<Request<'a>, Memory>
    ensures { IfOk result (λ read. IsSeenAs read (on_none (asked.Asks asked.Mounts) (texts_of words.now))) }
{
    if are_none(alloc, words)? {
        Ok(Request::Asks(Question::Mounts))
    } else {
        Ok(Request::Refuses(Refusal::OptionsRefused))
    }
}

/// The words behind `export` and `import`.
fn read_passing<'a>(alloc: Global, words: &'a [&'a str], flow: Flow) -> Result<Request<'a>, Memory>
    ensures { IfOk result (λ read. IsSeenAs read (on_two (asks_to_pass flow) (texts_of words.now))) }
{
    let Some((name, format)) = two(alloc, words)? else {
        return Ok(Request::Refuses(Refusal::OptionsRefused));
    };
    ask_to_pass(alloc, name, format, flow)
}

/// The words behind `file`.
fn read_file_name<'a>(alloc: Global, words: &'a [&'a str]) -> Result<Request<'a>, Memory>
    ensures { IfOk result (λ read. IsSeenAs read (on_one (λ word. on_name_for Writes word (λ name. asked.Asks (asked.FileOf name))) (texts_of words.now))) }
{
    let Some(name) = one(alloc, words)? else {
        return Ok(Request::Refuses(Refusal::OptionsRefused));
    };
    ask_for_file(alloc, name)
}

/// The words behind `validate`.
fn read_validation<'a>(alloc: Global, words: &'a [&'a str]) -> Result<Request<'a>, Memory>
    ensures { IfOk result (λ read. IsSeenAs read (on_one (λ word. on_name word (λ name. asked.Asks (asked.ViolationsOf name))) (texts_of words.now))) }
{
    let Some(name) = one(alloc, words)? else {
        return Ok(Request::Refuses(Refusal::OptionsRefused));
    };
    ask_for_violations(alloc, name)
}

/// The words behind `merge`.
fn read_merging<'a>(alloc: Global, words: &'a [&'a str]) -> Result<Request<'a>, Memory>
    ensures { IfOk result (λ read. IsSeenAs read (on_four_by_strategy asks_to_merge (texts_of words.now))) }
{
    let Some(words) = four_and_strategy(alloc, words)? else {
        return Ok(Request::Refuses(Refusal::OptionsRefused));
    };
    ask_to_merge(alloc, words)
}
