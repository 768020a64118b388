//! Sets by examples.

use crate::names::name;
use key_meta::{Memory, Meta, Text};
use key_name::KeyName;
use key_set::{Entry, KeySet};
use std::alloc::Global;
use std::test::Fail;

mod counted;

fn entry(alloc: Global, value: &str) -> Result<Entry, Memory> {
    Ok(Entry {
        value: Text::new(alloc, value)?,
        meta: Meta::new(alloc),
    })
}

/// Gives a name itself for its value, and gives back the entry that it had.
fn put(alloc: Global, set: &mut KeySet, text: &str) -> Result<Option<Entry>, Memory> {
    let name = name(alloc, text)?;
    set.append(name, entry(alloc, text)?)
}

fn set_of(alloc: Global, texts: &[&str]) -> Result<KeySet, Memory> {
    let mut set = KeySet::new(alloc);
    for text in texts {
        put(alloc, &mut set, text)?;
    }
    Ok(set)
}

/// A new set that got the keys of two others, and of an empty one.
fn united(alloc: Global, texts: &[&str], others: &[&str]) -> Result<KeySet, Memory> {
    let mut set = KeySet::new(alloc);
    set.append_all(set_of(alloc, texts)?)?;
    set.append_all(set_of(alloc, others)?)?;
    set.append_all(KeySet::new(alloc))?;
    Ok(set)
}

/// Tells the names of a set.
fn tell(set: &KeySet, all: &mut String) -> Result<(), Memory> {
    for (name, _) in set.iter() {
        all.push_str(&name.text()?)?;
        all.push(' ')?;
    }
    all.push_str("| ")
}

/// Tells what is copied of a name.
fn tell_below(set: &KeySet, at: &KeyName, all: &mut String) -> Result<(), Memory> {
    let copied = set.below(at)?;
    tell(&copied, all)
}

/// Tells the ways that lead from a name to the keys at or below it.
fn tell_relative(
    alloc: Global,
    set: &KeySet,
    at: &KeyName,
    all: &mut String,
) -> Result<(), Memory> {
    let ways = set.relative_to(alloc, at)?;
    tell(&ways, all)
}

/// Tells what is cut at a name.
fn tell_cut(set: &mut KeySet, at: &KeyName, all: &mut String) -> Result<(), Memory> {
    let taken = set.cut(at)?;
    tell(&taken, all)
}

/// Tells a set, what of it is at or below a name, that by its ways from there, what is cut, what is cut again, and what
/// is left.
fn tell_cuts(
    alloc: Global,
    set: &mut KeySet,
    at: &KeyName,
    all: &mut String,
) -> Result<(), Memory> {
    tell(set, all)?;
    tell_below(set, at, all)?;
    tell_relative(alloc, set, at, all)?;
    tell_cut(set, at, all)?;
    tell_cut(set, at, all)?;
    tell(set, all)
}

fn cuts_told(alloc: Global, set: &mut KeySet, at: &KeyName) -> Result<String, Memory> {
    let mut all = String::new(alloc);
    tell_cuts(alloc, set, at, &mut all)?;
    Ok(all)
}

fn cuts_of(alloc: Global) -> Result<String, Memory> {
    let at = name(alloc, "user:/a")?;
    let mut set = united(
        alloc,
        &["user:/a-b", "user:/a/b"],
        &["user:/a", "spec:/z", "user:/a/b"],
    )?;
    cuts_told(alloc, &mut set, &at)
}

#[test]
fn stands_in_name_order_and_cuts_a_name_with_what_is_below_it(rt: HostRuntime) -> Result<(), Fail> {
    let want =
        "spec:/z user:/a user:/a/b user:/a-b | user:/a user:/a/b | / /b | user:/a user:/a/b | | spec:/z user:/a-b | ";
    assert_eq!(rt; cuts_of(rt.alloc())?.as_str(), want);
    Ok(())
}

/// Each of the two keys weighs 64, and the bytes of its name and its value: 14 and 18.
#[test]
fn weighs_its_keys(rt: HostRuntime) -> Result<(), Fail> {
    assert_eq!(rt;
        set_of(rt.alloc(), &["user:/a", "spec:/z/b"])?.weight(),
        160
    );
    Ok(())
}

/// Which number comes at a step: in an order that rises, falls or is mixed. The stride is a prime that doesn't divide
/// their number.
fn number_at(step: u32, count: u32, order: u32) -> u32 {
    match order {
        0 => step,
        1 => count.saturating_sub(1).saturating_sub(step),
        _ => step.wrapping_mul(7_919).checked_rem(count).unwrap_or(0),
    }
}

fn put_number(alloc: Global, set: &mut KeySet, number: u32) -> Result<Option<Entry>, Memory> {
    let text = format!(in alloc; "user:/key/{number}")?;
    put(alloc, set, &text)
}

/// So many keys, in an order.
fn many(alloc: Global, count: u32, order: u32) -> Result<KeySet, Memory> {
    let mut set = KeySet::new(alloc);
    for step in 0..count {
        put_number(alloc, &mut set, number_at(step, count, order))?;
    }
    Ok(set)
}

/// Whether a name has itself for its value.
fn has_own_value(set: &KeySet, at: &KeyName, text: &str) -> bool {
    match set.lookup(at) {
        Some(entry) => entry.value.as_str() == text,
        None => false,
    }
}

/// Whether the key of a number is found by its name.
fn has_number(alloc: Global, set: &KeySet, number: u32) -> Result<bool, Memory> {
    let text = format!(in alloc; "user:/key/{number}")?;
    let at = name(alloc, &text)?;
    Ok(has_own_value(set, &at, &text))
}

/// How many of the keys are found by their names, each with its own value.
fn found(alloc: Global, set: &KeySet, count: u32) -> Result<u32, Memory> {
    let mut found = 0u32;
    for number in 0..count {
        if has_number(alloc, set, number)? {
            found = found.saturating_add(1);
        }
    }
    Ok(found)
}

/// Cuts the name that all of many keys are below.
fn cut_all(alloc: Global, set: &mut KeySet) -> Result<KeySet, Memory> {
    let at = name(alloc, "user:/key")?;
    set.cut(&at)
}

/// How many keys are cut, and how many are left.
fn counts_of_cut(alloc: Global, set: &mut KeySet) -> Result<(usize, usize), Memory> {
    let taken = cut_all(alloc, set)?;
    Ok((taken.len(), set.len()))
}

/// How many of so many keys are found, and are cut, and how many are left.
fn counts(alloc: Global, count: u32, order: u32) -> Result<(u32, (usize, usize)), Memory> {
    let mut set = many(alloc, count, order)?;
    let found = found(alloc, &set, count)?;
    Ok((found, counts_of_cut(alloc, &mut set)?))
}

#[test]
fn finds_each_of_ten_thousand_keys(rt: HostRuntime) -> Result<(), Fail> {
    for order in [0, 1, 2] {
        assert_eq!(rt; counts(rt.alloc(), 10_000, order)?, (10_000, (10_000, 0)));
    }
    Ok(())
}
