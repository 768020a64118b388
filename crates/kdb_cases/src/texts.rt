//! Texts as they are shown, and words that name a file or a format.

use crate::notation::{shown as shown_bytes, text_of};
use kdb_outside::{FileName, Kind};
use kdb_text::{quoted, shown, shown_text};
use key_meta::Memory;
use key_name::KeyName;
use std::alloc::Global;

/// What comes of a line, if it is one of texts.
pub fn answer_to(alloc: Global, word: &str, rest: &str) -> Result<Option<String>, Memory> {
    let Some(text) = text_of(alloc, rest)? else {
        return Ok(None);
    };
    match text_for(alloc, word, &text)? {
        Some(answer) => {
            let answer = shown_bytes(alloc, answer.as_bytes())?;
            Ok(Some(format!(in alloc; "  {answer}\n")?))
        }
        None => Ok(None),
    }
}

fn text_for(alloc: Global, word: &str, text: &str) -> Result<Option<String>, Memory> {
    match word {
        "quoted" => Ok(Some(quoted(alloc, text)?)),
        "text" => Ok(Some(shown_text(alloc, text)?)),
        "shown" => Ok(Some(name_shown(alloc, text)?)),
        "file-name" => Ok(Some(told(alloc, FileName::new(alloc, text)?.is_some())?)),
        "kind" => Ok(Some(kind_told(alloc, text)?)),
        _ => Ok(None),
    }
}

fn name_shown(alloc: Global, text: &str) -> Result<String, Memory> {
    match KeyName::parse(alloc, text) {
        Ok(name) => shown(alloc, &name),
        Err(_) => String::from_str(alloc, "no name"),
    }
}

fn kind_told(alloc: Global, text: &str) -> Result<String, Memory> {
    match Kind::of(text) {
        Some(kind) => String::from_str(alloc, kind.word()),
        None => String::from_str(alloc, "none"),
    }
}

fn told(alloc: Global, is_name: bool) -> Result<String, Memory> {
    String::from_str(alloc, if is_name { "a name" } else { "no name" })
}
