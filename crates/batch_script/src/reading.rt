//! Reads a script line by line.
ghost use Rattle.std.specs.Prelude.{◌≡◌, length, MatchResult};
ghost use Rattle.model_lines.specs.Lines.{lines};
ghost use Rattle.batch_script.specs.Scripts.{is_too_long, Reads, Refuses};

use crate::faults::ScriptFault;
use crate::progress::{add_line, nothing_read, script_of};
use crate::steps::Script;
use file_lines::first_line;
use std::alloc::Global;

/// The most bytes of a script.
const LONGEST_SCRIPT: usize = 4_194_304;

/// The most lines of a script.
const MOST_LINES: u64 = 100_000;

/// The script that bytes read as, or the first line that has no meaning behind those before it.
pub fn parse_script(alloc: Global, bytes: &[u8]) -> Result<Script, ScriptFault>
    ensures { MatchResult result (Reads bytes.now) (Refuses bytes.now) }
{
    let mut progress = nothing_read(alloc)?;
    let mut rest = bytes;
    let mut number: u64 = 1;
    while !rest.is_empty() {
        let (line, behind) = first_line(rest);
        if !add_line(&mut progress, alloc, line)? {
            return Err(ScriptFault::BadLine { line: number });
        }
        rest = behind;
        number += 1;
    }
    Ok(script_of(progress, alloc)?)
}

/// Whether bytes are too long for a script: more than 4,194,304 bytes, or more than 100,000 lines. It is asked before
/// lines are read.
pub fn is_too_long(bytes: &[u8]) -> bool
    ensures { result ≡ is_too_long bytes.now }
{
    bytes.len() > LONGEST_SCRIPT || count_lines(bytes) > MOST_LINES
}

/// How many lines some bytes have.
fn count_lines(bytes: &[u8]) -> u64
    ensures { result ≡ length (lines bytes.now) }
{
    let mut rest = bytes;
    let mut count: u64 = 0;
    while !rest.is_empty() {
        let (_, behind) = first_line(rest);
        rest = behind;
        count += 1;
    }
    count
}
