//! Reads a file line by line: its keys, or the first line that has no reading.
ghost use Rattle.std.specs.Prelude.{MatchResult};
ghost use Rattle.storage_api.specs.Formats.{RefusesToRead};
ghost use Rattle.model_hosts.specs.Hosts.{Reads, IsBadAt};

use crate::progress::{Progress, add_line};
use crate::weighed::Weighed;
use file_lines::first_line;
use key_set::KeySet;
use std::alloc::Global;
use storage_api::ReadRefusal;

/// The keys of a file; comments behind its last entry are dropped. A bad file's line is the first that has no reading,
/// from 1.
pub fn read(alloc: Global, bytes: &[u8]) -> Result<KeySet, ReadRefusal>
    ensures { MatchResult result (λ keys. Reads bytes.now keys) (RefusesToRead (IsBadAt bytes.now)) }
{
    let mut progress = Progress {
        found: Weighed {
            keys: KeySet::new(alloc),
            weight: 0,
        },
        waiting: Vec::new(alloc),
    };
    let mut rest = bytes;
    let mut number: u64 = 1;
    while !rest.is_empty() {
        let (line, behind) = first_line(rest);
        if !add_line(&mut progress, alloc, line)? {
            return Err(ReadRefusal::BadFile { line: number });
        }
        rest = behind;
        number += 1;
    }
    Ok(progress.found.keys)
}
