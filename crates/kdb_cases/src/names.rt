//! Names of keys: how they are spelled, what they refuse, and how they stand to one another.

use crate::notation::{push_line, shown, text_of, two_of};
use key_meta::Memory;
use key_name::{KeyName, NameFault, Namespace};
use std::alloc::{AllocError, Global};

/// What comes of a line, if it is one of names.
pub fn answer_to(alloc: Global, word: &str, rest: &str) -> Result<Option<String>, Memory> {
    match word {
        "name" | "path-bytes" | "parts" => match text_of(alloc, rest)? {
            Some(text) => Ok(Some(told_of_one(alloc, word, &text)?)),
            None => Ok(None),
        },
        "child" | "join" | "below" | "way" | "order" => match two_of(alloc, rest)? {
            Some((text, other)) => Ok(Some(told_of_two(alloc, word, &text, &other)?)),
            None => Ok(None),
        },
        _ => Ok(None),
    }
}

fn told_of_one(alloc: Global, word: &str, text: &str) -> Result<String, Memory> {
    let name = match KeyName::parse(alloc, text) {
        Ok(name) => name,
        Err(fault) => return refused(alloc, fault),
    };
    match word {
        "path-bytes" => format!(in alloc; "  {}\n", name.path_bytes()),
        "parts" => parts(alloc, &name),
        _ => spelled(alloc, &name.copy()?),
    }
}

fn told_of_two(alloc: Global, word: &str, text: &str, other: &str) -> Result<String, Memory> {
    let name = match KeyName::parse(alloc, text) {
        Ok(name) => name,
        Err(fault) => return refused(alloc, fault),
    };
    if word == "child" {
        return spelled_or_refused(alloc, name.child(other));
    }
    match KeyName::parse(alloc, other) {
        Ok(other) => told_of(alloc, word, &name, &other),
        Err(fault) => refused(alloc, fault),
    }
}

fn told_of(alloc: Global, word: &str, name: &KeyName, other: &KeyName) -> Result<String, Memory> {
    match word {
        "join" => {
            let relative = other.with_namespace(Namespace::Cascading)?;
            spelled_or_refused(alloc, name.join(&relative))
        }
        "way" => match name.relative_to(other)? {
            Some(way) => spelled(alloc, &way),
            None => String::from_str(alloc, "  none\n"),
        },
        "order" => {
            let (order, equal, less) = (name.cmp(other), name == other, name < other);
            format!(in alloc; "  {order:?}, equal {equal}, less {less}\n")
        }
        _ => {
            let (below, or_same) = (name.is_below(other), name.is_below_or_same(other));
            format!(in alloc; "  below {below}, below or same {or_same}\n")
        }
    }
}

/// The namespace, and how many parts there are, each by itself.
fn parts(alloc: Global, name: &KeyName) -> Result<String, Memory> {
    let namespace = name.namespace();
    let mut answer = format!(in alloc; "  {namespace:?} {}\n", name.len())?;
    for i in 0..name.len() {
        let part = name.part(i).unwrap_or("none");
        push_line(alloc, &mut answer, "part", part.as_bytes())?;
    }
    match name.base_name() {
        Some(base) => push_line(alloc, &mut answer, "base", base.as_bytes())?,
        None => answer.push_str("  no base\n")?,
    }
    Ok(answer)
}

fn spelled_or_refused(alloc: Global, name: Result<KeyName, NameFault>) -> Result<String, Memory> {
    match name {
        Ok(name) => spelled(alloc, &name),
        Err(fault) => refused(alloc, fault),
    }
}

fn spelled(alloc: Global, name: &KeyName) -> Result<String, Memory> {
    let text = shown(alloc, name.text()?.as_bytes())?;
    format!(in alloc; "  {text}\n")
}

fn refused(alloc: Global, fault: NameFault) -> Result<String, Memory> {
    match fault {
        NameFault::Memory => Err(AllocError),
        fault => format!(in alloc; "  {fault:?}\n"),
    }
}
