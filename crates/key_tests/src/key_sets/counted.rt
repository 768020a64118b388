//! The calls whose comparisons are counted, with ample memory.
ghost use Rattle.std.specs.Prelude.{◌≡◌, ◌<◌};

use super::entry;
use crate::names::name;
use key_meta::Memory;
use key_set::KeySet;
use std::alloc::Global;
use std::marker::Brand;
use std::sync::ledger::{Blank, Ledger};
use std::test::Fail;
use step_count::Steps;

/// Puts a key, and tells whether it had an entry before, which is then both found and given back.
fn had_one<L: Ledger>(
    alloc: Global,
    set: &mut KeySet,
    text: &str,
    steps: &mut Steps<L>,
) -> Result<bool, Memory> {
    let at = name(alloc, text)?;
    let found = set.lookup_counted(&at, steps).is_some();
    let former = set.append_counted(at, entry(alloc, text)?, steps)?;
    Ok(found && former.is_some())
}

/// The same of the key of a number.
fn had_number<L: Ledger>(
    alloc: Global,
    set: &mut KeySet,
    number: u32,
    steps: &mut Steps<L>,
) -> Result<bool, Memory> {
    let text = format!(in alloc; "user:/key/{}", number.wrapping_mul(7) % 300)?;
    had_one(alloc, set, &text, steps)
}

/// How many of so many calls came to a key that had an entry.
fn found_again<L: Ledger>(alloc: Global, blank: Blank, calls: u32) -> Result<u32, Memory>
    requires name { blank.name ≡ L.name }
    requires parts { blank.parts ≡ L.parts }
    requires some { 0 < blank.parts }
{
    let mut steps = Steps::<L>::none(blank);
    let mut set = KeySet::new(alloc);
    let mut again = 0u32;
    for number in 0..calls {
        if had_number(alloc, &mut set, number, &mut steps)? {
            again = again.saturating_add(1);
        }
    }
    Ok(again)
}

/// Of 500 calls with 300 keys in turn, the last 200 come to a key that is there.
#[test]
fn counted_calls_find_what_was_put(rt: HostRuntime) -> Result<(), Fail> {
    assert_eq!(rt; found_again::<Brand>(rt.alloc(), Blank::new(1), 500)?, 200);
    Ok(())
}
