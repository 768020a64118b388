//! Bodies of the journal's entries: where bytes stop being one, and the text of one.

use crate::notation::{bytes_of, push_line};
use journal_codec::{DecodeFault, FileText, decode, encode, spells_what_is_read};
use key_meta::{List, Memory};
use std::alloc::{AllocError, Global};

/// What comes of a line, if it is one of bodies.
pub fn answer_to(alloc: Global, word: &str, rest: &str) -> Result<Option<String>, Memory> {
    if word != "body" {
        return Ok(None);
    }
    let bytes = bytes_of(alloc, rest)?;
    Ok(Some(told(alloc, &bytes)?))
}

fn told(alloc: Global, bytes: &[u8]) -> Result<String, Memory> {
    spells_what_is_read();
    match decode(alloc, bytes) {
        Ok(files) => {
            let encoded = encode(alloc, files.as_slice())?;
            files_of(alloc, &files, &encoded)
        }
        Err(DecodeFault::BadJournal { at }) => format!(in alloc; "  bad at {at}\n"),
        Err(_) => Err(AllocError),
    }
}

/// Each file with its bytes, and the entry that is written of them.
fn files_of(alloc: Global, files: &List<FileText>, encoded: &[u8]) -> Result<String, Memory> {
    let mut answer = String::new(alloc);
    for file in files.as_slice() {
        push_line(alloc, &mut answer, file.file.text(), file.bytes.as_slice())?;
    }
    push_line(alloc, &mut answer, "entry", encoded)?;
    Ok(answer)
}
