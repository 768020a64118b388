//! The items of a range.
ghost use Rattle.std.specs.Prelude.{◌≡◌, ◌≢◌, ◌∷◌, ℕ, List, false, MatchOption};
ghost use Rattle.model_rules.specs.Number.{with_sign};
ghost use Rattle.model_rules.specs.Range.{IsItem};
ghost use Rattle.model_rules.specs.declared.intervals.Interval.{Interval};
ghost use Rattle.range_check.specs.Items.{IsAlone, IsBetween};

use model_rules::Interval;
use type_check::{number_of, signed_number_of};

/// The interval of an item.
pub fn interval_of(item: &str) -> Option<Interval>
    ensures { MatchOption result ((interval : Interval) → IsItem item.now interval → ⊥) (IsItem item.now) }
{
    match item.strip_prefix('-') {
        Some(rest) => signed_interval_of(true, rest),
        None => signed_interval_of(false, item),
    }
}

/// The interval of what stands behind the sign of an item. The next minus stands between two numbers.
fn signed_interval_of(minus: bool, rest: &str) -> Option<Interval>
    requires { minus ≡ false → (bytes : List ℕ) → rest.now ≢ 45 ∷ bytes }
    ensures { MatchOption result ((interval : Interval) → IsItem (with_sign minus rest.now) interval → ⊥) (IsItem (with_sign minus rest.now)) }
{
    match rest.split_once('-') {
        None => interval_of_one(minus, rest),
        Some((first, last)) => interval_of_two(minus, first, last),
    }
}

/// The interval of a number alone.
fn interval_of_one(minus: bool, digits: &str) -> Option<Interval>
    ensures { MatchOption result ((interval : Interval) → IsAlone minus digits.now interval → ⊥) (IsAlone minus digits.now) }
{
    let number = signed_number_of(minus, digits)?;
    Some(Interval {
        low: number,
        high: number,
    })
}

/// The interval from one number to another.
fn interval_of_two(minus: bool, first: &str, last: &str) -> Option<Interval>
    ensures { MatchOption result ((interval : Interval) → IsBetween minus first.now last.now interval → ⊥) (IsBetween minus first.now last.now) }
{
    let Some(low) = signed_number_of(minus, first) else {
        return None;
    };
    let Some(high) = number_of(last) else {
        return None;
    };
    if high < low {
        return None;
    }
    Some(Interval { low, high })
}
