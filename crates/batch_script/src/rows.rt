//! What the words of a line say.
ghost use Rattle.std.specs.Prelude.{◌≡◌, Some, IfOk, IfSome};
ghost use Rattle.std.specs.Option.{option_map};
ghost use Rattle.model_names.specs.NameOf.{name_of};
ghost use Rattle.batch_script.specs.Rows.{is_cascading, merge_of, on_merge, on_meta, on_name, on_none, on_one, on_plain_name, on_proc, on_three, on_two, on_undo, on_watch, plain_name_of, proc_name_of, rows, said, said_by, session_of, watch_of, IsNumbered};
ghost use Rattle.batch_script.specs.declared.items.Item.TheVariants.{Does, Session, Phase as PhaseEnd};
ghost use Rattle.batch_script.specs.declared.steps.Step.TheVariants as steps;

use crate::counts::{commit_number_of, session_of, tries_of, watch_room_of};
use crate::items::Item;
use crate::meta_words::MetaWord;
use crate::steps::{ProcLine, Step};
use key_merge::strategy_of;
use key_meta::{Memory, Text};
use key_name::{KeyName, NameFault};
use model_names::Namespace;
use std::alloc::{AllocError, Global};

/// What the words of a line say.
pub fn said(alloc: Global, words: &[Text]) -> Result<Option<Item>, Memory>
    ensures said { IfOk result (λ found. found ≡ said words.now) }
    ensures numbered { IfOk result (λ found. IfSome found IsNumbered) }
{
    let [first, behind @ ..] = words else {
        return Ok(None);
    };
    said_behind(alloc, first.as_str(), behind)
}

/// What the words behind a line's first word say.
fn said_behind(alloc: Global, first: &str, words: &[Text]) -> Result<Option<Item>, Memory>
    ensures said { IfOk result (λ found. found ≡ said_by rows first.now words.now) }
    ensures numbered { IfOk result (λ found. IfSome found IsNumbered) }
{
    match first {
        "proc" => proc_line(alloc, words),
        "session" => Ok(session_line(words)),
        "phase" => Ok(phase_line(words)),
        "get" => get(alloc, words),
        "put" => put(alloc, words),
        "meta" => meta(alloc, words),
        "del" => del(alloc, words),
        "cut" => cut(alloc, words),
        "look" => look(alloc, words),
        "set" => set(alloc, words),
        "merge" => merge(alloc, words),
        "watch" => watch(alloc, words),
        "poll" => Ok(poll(words)),
        "undo" => Ok(undo(words)),
        _ => Ok(None),
    }
}

/// The words behind `proc`.
fn proc_line(alloc: Global, words: &[Text]) -> Result<Option<Item>, Memory>
    ensures said { IfOk result (λ found. found ≡ on_three on_proc words.now) }
    ensures numbered { IfOk result (λ found. IfSome found IsNumbered) }
{
    let [number, path, value] = words else {
        return Ok(None);
    };
    let Some(session) = session_of(number.as_str()) else {
        return Ok(None);
    };
    let Some(key) = proc_name_of(alloc, path.as_str())? else {
        return Ok(None);
    };
    let value = value.copy()?;
    Ok(Some(Item::Proc(ProcLine {
        session,
        key,
        value,
    })))
}

/// The words behind `session`.
fn session_line(words: &[Text]) -> Option<Item>
    ensures said { result ≡ on_one (λ number. option_map Session (session_of number)) words.now }
    ensures numbered { IfSome result IsNumbered }
{
    let [number] = words else {
        return None;
    };
    match session_of(number.as_str()) {
        Some(session) => Some(Item::Session(session)),
        None => None,
    }
}

/// The words behind `phase`.
fn phase_line(words: &[Text]) -> Option<Item>
    ensures said { result ≡ on_none (Some PhaseEnd) words.now }
    ensures numbered { IfSome result IsNumbered }
{
    if words.is_empty() {
        Some(Item::Phase)
    } else {
        None
    }
}

/// The words behind `get`.
fn get(alloc: Global, words: &[Text]) -> Result<Option<Item>, Memory>
    ensures said { IfOk result (λ found. found ≡ on_one (on_name steps.Get) words.now) }
    ensures numbered { IfOk result (λ found. IfSome found IsNumbered) }
{
    let [word] = words else {
        return Ok(None);
    };
    let Some(parent) = name_of(alloc, word.as_str())? else {
        return Ok(None);
    };
    Ok(Some(Item::Does(Step::Get { parent })))
}

/// The words behind `put`.
fn put(alloc: Global, words: &[Text]) -> Result<Option<Item>, Memory>
    ensures said { IfOk result (λ found. found ≡ on_two (λ word value. on_name (λ name. steps.Put name value) word) words.now) }
    ensures numbered { IfOk result (λ found. IfSome found IsNumbered) }
{
    let [word, value] = words else {
        return Ok(None);
    };
    let Some(name) = name_of(alloc, word.as_str())? else {
        return Ok(None);
    };
    let value = value.copy()?;
    Ok(Some(Item::Does(Step::Put { name, value })))
}

/// The words behind `meta`.
fn meta(alloc: Global, words: &[Text]) -> Result<Option<Item>, Memory>
    ensures said { IfOk result (λ found. found ≡ on_three on_meta words.now) }
    ensures numbered { IfOk result (λ found. IfSome found IsNumbered) }
{
    let [word, meta, value] = words else {
        return Ok(None);
    };
    let Some(meta) = MetaWord::new(meta.copy()?) else {
        return Ok(None);
    };
    let Some(name) = name_of(alloc, word.as_str())? else {
        return Ok(None);
    };
    let value = value.copy()?;
    Ok(Some(Item::Does(Step::MetaStep { name, meta, value })))
}

/// The words behind `del`.
fn del(alloc: Global, words: &[Text]) -> Result<Option<Item>, Memory>
    ensures said { IfOk result (λ found. found ≡ on_one (on_name steps.Del) words.now) }
    ensures numbered { IfOk result (λ found. IfSome found IsNumbered) }
{
    let [word] = words else {
        return Ok(None);
    };
    let Some(name) = name_of(alloc, word.as_str())? else {
        return Ok(None);
    };
    Ok(Some(Item::Does(Step::Del { name })))
}

/// The words behind `cut`.
fn cut(alloc: Global, words: &[Text]) -> Result<Option<Item>, Memory>
    ensures said { IfOk result (λ found. found ≡ on_one (on_plain_name steps.Cut) words.now) }
    ensures numbered { IfOk result (λ found. IfSome found IsNumbered) }
{
    let [word] = words else {
        return Ok(None);
    };
    let Some(name) = plain_name_of(alloc, word.as_str())? else {
        return Ok(None);
    };
    Ok(Some(Item::Does(Step::Cut { name })))
}

/// The words behind `look`.
fn look(alloc: Global, words: &[Text]) -> Result<Option<Item>, Memory>
    ensures said { IfOk result (λ found. found ≡ on_one (on_name steps.Look) words.now) }
    ensures numbered { IfOk result (λ found. IfSome found IsNumbered) }
{
    let [word] = words else {
        return Ok(None);
    };
    let Some(name) = name_of(alloc, word.as_str())? else {
        return Ok(None);
    };
    Ok(Some(Item::Does(Step::Look { name })))
}

/// The words behind `set`.
fn set(alloc: Global, words: &[Text]) -> Result<Option<Item>, Memory>
    ensures said { IfOk result (λ found. found ≡ on_one (on_name steps.Set) words.now) }
    ensures numbered { IfOk result (λ found. IfSome found IsNumbered) }
{
    let [word] = words else {
        return Ok(None);
    };
    let Some(parent) = name_of(alloc, word.as_str())? else {
        return Ok(None);
    };
    Ok(Some(Item::Does(Step::Set { parent })))
}

/// The words behind `merge`.
fn merge(alloc: Global, words: &[Text]) -> Result<Option<Item>, Memory>
    ensures said { IfOk result (λ found. found ≡ on_three on_merge words.now) }
    ensures numbered { IfOk result (λ found. IfSome found IsNumbered) }
{
    let [word, strategy, tries] = words else {
        return Ok(None);
    };
    let Some(parent) = name_of(alloc, word.as_str())? else {
        return Ok(None);
    };
    Ok(merge_of(parent, strategy.as_str(), tries.as_str()))
}

/// A merge by the words behind its parent.
fn merge_of(parent: KeyName, strategy: &str, tries: &str) -> Option<Item>
    ensures said { result ≡ merge_of parent strategy.now tries.now }
    ensures numbered { IfSome result IsNumbered }
{
    let Some(strategy) = strategy_of(strategy) else {
        return None;
    };
    let Some(tries) = tries_of(tries) else {
        return None;
    };
    Some(Item::Does(Step::Merge {
        parent,
        strategy,
        tries,
    }))
}

/// The words behind `watch`.
fn watch(alloc: Global, words: &[Text]) -> Result<Option<Item>, Memory>
    ensures said { IfOk result (λ found. found ≡ on_two on_watch words.now) }
    ensures numbered { IfOk result (λ found. IfSome found IsNumbered) }
{
    let [word, room] = words else {
        return Ok(None);
    };
    let Some(parent) = name_of(alloc, word.as_str())? else {
        return Ok(None);
    };
    Ok(watch_of(parent, room.as_str()))
}

/// A watch by the word behind its parent.
fn watch_of(parent: KeyName, room: &str) -> Option<Item>
    ensures said { result ≡ watch_of parent room.now }
    ensures numbered { IfSome result IsNumbered }
{
    let Some(room) = watch_room_of(room) else {
        return None;
    };
    Some(Item::Does(Step::Watch { parent, room }))
}

/// The words behind `poll`.
fn poll(words: &[Text]) -> Option<Item>
    ensures said { result ≡ on_none (Some (Does steps.Poll)) words.now }
    ensures numbered { IfSome result IsNumbered }
{
    if words.is_empty() {
        Some(Item::Does(Step::Poll))
    } else {
        None
    }
}

/// The words behind `undo`.
fn undo(words: &[Text]) -> Option<Item>
    ensures said { result ≡ on_one on_undo words.now }
    ensures numbered { IfSome result IsNumbered }
{
    let [word] = words else {
        return None;
    };
    match commit_number_of(word.as_str()) {
        Some(number) => Some(Item::Does(Step::Undo { number })),
        None => None,
    }
}

/// The name that a word spells.
fn name_of(alloc: Global, word: &str) -> Result<Option<KeyName>, Memory>
    ensures { IfOk result (λ found. found ≡ name_of word.now) }
{
    match KeyName::parse(alloc, word) {
        Ok(name) => Ok(Some(name)),
        Err(NameFault::Memory) => Err(AllocError),
        Err(_) => Ok(None),
    }
}

/// The name in the namespace `proc` with the parts of the cascading name that a word spells.
fn proc_name_of(alloc: Global, word: &str) -> Result<Option<KeyName>, Memory>
    ensures { IfOk result (λ found. found ≡ proc_name_of word.now) }
{
    let Some(name) = name_of(alloc, word)? else {
        return Ok(None);
    };
    if !is_cascading(&name) {
        return Ok(None);
    }
    Ok(Some(name.with_namespace(Namespace::Proc)?))
}

/// The name that a word spells, where it is in one namespace.
fn plain_name_of(alloc: Global, word: &str) -> Result<Option<KeyName>, Memory>
    ensures { IfOk result (λ found. found ≡ plain_name_of word.now) }
{
    let Some(name) = name_of(alloc, word)? else {
        return Ok(None);
    };
    if is_cascading(&name) {
        return Ok(None);
    }
    Ok(Some(name))
}

fn is_cascading(name: &KeyName) -> bool
    ensures { result ≡ is_cascading name.now }
{
    match name.namespace() {
        Namespace::Cascading => true,
        _ => false,
    }
}
