//! Appends names to a key set, looks them up and copies the set, to be timed from outside by bench/key_set.sh. The
//! words are how many names there are, whether they are appended (1 or 0), how many rounds each of them is looked up,
//! in which order they come (0 mixed, 1 rising, 2 falling), and how many copies are made. Up to a hundred thousand
//! names are in the order of their numbers.
#![tactic(auto)]

use key_meta::{Memory, Meta, Text};
use key_name::{KeyName, NameFault};
use key_set::{Entry, KeySet};
use std::alloc::{AllocError, Global};
use std::env;
use std::process::ExitCode;

/// A prime, so that its multiples meet all numbers below a count that it doesn't divide, in mixed order.
const STRIDE: u64 = 7919;

/// The number of the first name: each has as many digits.
const FIRST: u64 = 100000;

/// A name by its number.
fn name(alloc: Global, number: u64) -> Result<KeyName, Memory> {
    let number = number.wrapping_add(FIRST);
    let group = number / 50;
    let text = format!(in alloc; "user:/bench/group{group}/key{number}")?;
    match KeyName::parse(alloc, &text) {
        Ok(name) => Ok(name),
        Err(NameFault::Memory) => Err(AllocError),
        Err(_) => Ok(KeyName::root(alloc, key_name::Namespace::User)),
    }
}

/// Which name comes at a place.
fn number_at(place: u64, count: u64, order: u64) -> u64 {
    match order {
        0 => place.wrapping_mul(STRIDE).checked_rem(count).unwrap_or(0),
        1 => place,
        _ => count.wrapping_sub(place).wrapping_sub(1),
    }
}

/// That many names in an order.
fn names(alloc: Global, count: u64, order: u64) -> Result<Vec<KeyName>, Memory> {
    let mut names = Vec::new(alloc);
    for i in 0..count {
        names.push(name(alloc, number_at(i, count, order))?)?;
    }
    Ok(names)
}

/// The names as a key set, with empty values.
fn appended(alloc: Global, names: &[KeyName]) -> Result<KeySet, Memory> {
    let mut keys = KeySet::new(alloc);
    for name in names {
        let entry = Entry {
            value: Text::new(alloc, "")?,
            meta: Meta::new(alloc),
        };
        let _ = keys.append(name.copy()?, entry)?;
    }
    Ok(keys)
}

/// How many of the names are found, in all rounds.
fn found(keys: &KeySet, names: &[KeyName], rounds: u64) -> u64 {
    let mut found: u64 = 0;
    for _ in 0..rounds {
        for name in names {
            if keys.lookup(name).is_some() {
                found = found.saturating_add(1);
            }
        }
    }
    found
}

/// How many keys so many copies have, one copy after the other.
fn copied(keys: &KeySet, copies: u64) -> Result<u64, Memory> {
    let mut copied: u64 = 0;
    for _ in 0..copies {
        copied = copied.saturating_add(keys.copy()?.len() as u64);
    }
    Ok(copied)
}

/// A word as a number; 0 where it is none.
fn number(words: &[String], at: usize) -> u64 {
    match words.get(at) {
        Some(word) => word.as_str().parse().unwrap_or(0),
        None => 0,
    }
}

fn main(rt: HostRuntime) -> ExitCode {
    let mut words = Vec::new(rt.alloc());
    let Ok(args) = env::args(&rt) else {
        return ExitCode::from(1);
    };
    for word in args.skip(1) {
        if words.push(word).is_err() {
            return ExitCode::from(1);
        }
    }
    match work(rt.alloc(), &words) {
        Ok(true) => ExitCode::from(0),
        _ => ExitCode::from(1),
    }
}

/// Whether as many names were found as were looked up, and as many copied.
fn work(alloc: Global, words: &[String]) -> Result<bool, Memory> {
    let count = number(words, 0);
    let rounds = number(words, 2);
    let copies = number(words, 4);
    let names = names(alloc, count, number(words, 3))?;
    if number(words, 1) == 0 {
        return Ok(names.len() as u64 == count);
    }
    let keys = appended(alloc, &names)?;
    let len = keys.len() as u64;
    let found = found(&keys, &names, rounds);
    Ok(found == rounds.saturating_mul(len) && copied(&keys, copies)? == copies.saturating_mul(len))
}
