//! Files by their formats: whether bytes are one, and what they read as.

use crate::notation::{bytes_of, shown};
use all_formats::AllFormats;
use kdb_outside::Kind;
use key_meta::Memory;
use std::alloc::{AllocError, Global};
use storage_api::{Formats, ReadRefusal, WriteRefusal};

/// What comes of a line, if it is one of formats.
pub fn answer_to(alloc: Global, word: &str, rest: &str) -> Result<Option<String>, Memory> {
    if let Some(kind) = Kind::of(word) {
        let bytes = bytes_of(alloc, rest)?;
        return Ok(Some(read_of(alloc, kind, &bytes)?));
    }
    let (format, text) = rest.split_once(' ').unwrap_or((rest, ""));
    let Some(kind) = Kind::of(format) else {
        return Ok(None);
    };
    match word {
        "again" => Ok(Some(written(alloc, kind, kind, text)?)),
        "as-dump" => Ok(Some(written(alloc, kind, Kind::Dump, text)?)),
        "as-json" => Ok(Some(written(alloc, kind, Kind::Json, text)?)),
        "first" => Ok(Some(first_of(alloc, kind, text)?)),
        "by-keys" => {
            let answer = AllFormats.keywise(kind);
            Ok(Some(format!(in alloc; "  {answer}\n")?))
        }
        _ => Ok(None),
    }
}

/// How many keys there are, or the line of the first fault.
fn read_of(alloc: Global, kind: Kind, bytes: &[u8]) -> Result<String, Memory> {
    match AllFormats.read(alloc, kind, bytes) {
        Ok(keys) => format!(in alloc; "  {} keys\n", keys.len()),
        Err(ReadRefusal::BadFile { line }) => format!(in alloc; "  bad at line {line}\n"),
        Err(ReadRefusal::Memory) => Err(AllocError),
    }
}

/// The text of the keys of a file in a format, the first key that the format can't hold, or that the file is none.
fn written(alloc: Global, from: Kind, to: Kind, text: &str) -> Result<String, Memory> {
    let bytes = bytes_of(alloc, text)?;
    let Ok(keys) = AllFormats.read(alloc, from, &bytes) else {
        return format!(in alloc; "  no {}\n", from.word());
    };
    match AllFormats.write(alloc, to, &keys) {
        Ok(text) => format!(in alloc; "  {}\n", shown(alloc, &text)?),
        Err(WriteRefusal::NotStorable { key }) => {
            format!(in alloc; "  no {}: {}\n", to.word(), key.text()?)
        }
        Err(WriteRefusal::Memory) => Err(AllocError),
    }
}

/// The name of the first key, in name order.
fn first_of(alloc: Global, kind: Kind, text: &str) -> Result<String, Memory> {
    let bytes = bytes_of(alloc, text)?;
    let Ok(keys) = AllFormats.read(alloc, kind, &bytes) else {
        return format!(in alloc; "  no {}\n", kind.word());
    };
    match keys.at(0) {
        Some((name, _)) => format!(in alloc; "  {}\n", name.text()?),
        None => String::from_str(alloc, "  no keys\n"),
    }
}
