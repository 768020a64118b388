//! A few texts, worked: the definitions at concrete texts.
ghost use Rattle.std.specs.Prelude.{◌≡◌, List, [], ◌∷◌, None, Some, ℤ, pos, neg_ℤ, codes};
ghost use Rattle.model_rules.specs.Number.{IsNumber, lowest_number};
ghost use Rattle.model_rules.specs.Range.{IsRange};
ghost use Rattle.model_rules.specs.Types.{kind_of};
ghost use Rattle.model_rules.specs.declared.intervals.Interval.{Interval};
ghost use Rattle.model_rules.specs.declared.kinds.Kind.TheVariants.{Number};

/// Zeros may stand in front, and a minus before zero. The least number has no opposite.
pub fn numbers_have_their_values()
    ensures zeros { IsNumber (codes "007") (pos 7) }
    ensures minus_zero { IsNumber (codes "-0") (pos 0) }
    ensures lowest { IsNumber (codes "-170141183460469231731687303715884105728") lowest_number }
{}

/// A plus is part of no number, and a number ends with 128 bits.
pub fn texts_that_are_no_numbers()
    ensures plus { (number : ℤ) → IsNumber (codes "+1") number → ⊥ }
    ensures beyond { (number : ℤ) → IsNumber (codes "170141183460469231731687303715884105728") number → ⊥ }
{}

/// A minus stands before a number or between two.
pub fn ranges_have_their_intervals()
    ensures negative { IsRange (codes "-5--1") (record { low = neg_ℤ (pos 5); high = neg_ℤ (pos 1) } ∷ []) }
    ensures several { IsRange (codes "1-1024,8080") (record { low = pos 1; high = pos 1024 } ∷ record { low = pos 8080; high = pos 8080 } ∷ []) }
{}

/// An interval doesn't fall, and no item is empty.
pub fn texts_that_are_no_ranges()
    ensures falling { (intervals : List Interval) → IsRange (codes "10-1") intervals → ⊥ }
    ensures empty { (intervals : List Interval) → IsRange [] intervals → ⊥ }
    ensures last { (intervals : List Interval) → IsRange (codes "1,") intervals → ⊥ }
{}

/// A word stands in the table, or is no type.
pub fn types_have_their_rows()
    ensures short { kind_of (codes "short") ≡ Some (Number (neg_ℤ (pos 32768)) (pos 32767)) }
    ensures unknown { kind_of (codes "int") ≡ None }
{}
