//! Long lines, spelled short.

use key_meta::Memory;
use std::alloc::Global;

/// A line with each `{c*N}` in it as so many letters `c`.
pub fn spelled_out(alloc: Global, line: &str) -> Result<String, Memory> {
    let mut whole = String::new(alloc);
    let mut pieces = line.split('{');
    whole.push_str(pieces.next().unwrap_or(""))?;
    for piece in pieces {
        match run_of(piece) {
            Some((letters, count, rest)) => {
                for _ in 0..count {
                    whole.push_str(letters)?;
                }
                whole.push_str(rest)?;
            }
            None => {
                whole.push_str("{")?;
                whole.push_str(piece)?;
            }
        }
    }
    Ok(whole)
}

/// The letters that a piece repeats, how often, and what comes behind them.
fn run_of(piece: &str) -> Option<(&str, u32, &str)> {
    let (run, rest) = piece.split_once('}')?;
    let (letters, count) = run.split_once('*')?;
    let count = count.parse().unwrap_or(0);
    Some((letters, count, rest))
}
