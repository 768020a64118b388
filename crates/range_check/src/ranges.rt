//! Ranges as lists of intervals.
ghost use Rattle.std.specs.Prelude.{◌≡◌, ℤ, List, true, false, map, IfOk, MatchOption};
ghost use Rattle.std.specs.List.{slice_split};
ghost use Rattle.model_rules.specs.Number.{IsNumber};
ghost use Rattle.model_rules.specs.Range.{IsRange, LiesIn, is_comma};
ghost use Rattle.model_rules.specs.declared.intervals.Interval.{Interval};

use crate::items::interval_of;
use key_meta::Memory;
use model_rules::Interval;
use std::alloc::Global;
use type_check::number_of;

/// The intervals of a range.
pub fn intervals_of(alloc: Global, text: &str) -> Result<Option<Vec<Interval>>, Memory>
    ensures { IfOk result (λ found. MatchOption found ((intervals : List Interval) → IsRange text.now intervals → ⊥) (λ found. IsRange text.now found.items)) }
{
    let items = items_of(alloc, text)?;
    let mut intervals = Vec::with_capacity(alloc, items.len())?;
    for item in items.as_slice() {
        match interval_of(item) {
            Some(interval) => intervals.push(interval)?,
            None => return Ok(None),
        }
    }
    Ok(Some(intervals))
}

/// What stands between the commas of a range.
fn items_of<'a>(alloc: Global, text: &'a str) -> Result<Vec<&'a str>, Memory>
    ensures { IfOk result (λ items. map (λ item. item.now) items.items ≡ slice_split is_comma text.now) }
{
    text.split(',').collect(alloc)
}

/// Whether a value is a number in one of some intervals.
pub fn is_in_one(intervals: &[Interval], value: &str) -> bool
    ensures yes { result ≡ true → (number : ℤ) × IsNumber value.now number × LiesIn intervals.now number }
    ensures no { result ≡ false → (number : ℤ) → IsNumber value.now number → LiesIn intervals.now number → ⊥ }
{
    match number_of(value) {
        Some(number) => lies_in(intervals, number),
        None => false,
    }
}

/// Whether a number lies in one of some intervals.
fn lies_in(intervals: &[Interval], number: i128) -> bool
    ensures yes { result ≡ true → LiesIn intervals.now number }
    ensures no { result ≡ false → LiesIn intervals.now number → ⊥ }
{
    intervals.iter().any(|interval| interval.low <= number && number <= interval.high)
}
