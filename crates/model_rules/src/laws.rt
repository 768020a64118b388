//! The laws of the check rules: a text is read in one way at most, and a check has one answer at most.
ghost use Rattle.std.specs.Prelude.{◌≡◌, List, ℕ, ℤ};
ghost use Rattle.model_maps.specs.Entry.{Meta};
ghost use Rattle.model_rules.specs.Number.{IsNumber};
ghost use Rattle.model_rules.specs.Range.{IsItem, IsRange};
ghost use Rattle.model_rules.specs.Rules.{BreaksEnum, BreaksRange, BreaksType};
ghost use Rattle.model_rules.specs.declared.breaches.Broken.{Broken};
ghost use Rattle.model_rules.specs.declared.intervals.Interval.{Interval};

/// A text is at most one number.
pub fn one_text_one_number()
    ensures { (text : List ℕ) (a b : ℤ) → IsNumber text a → IsNumber text b → a ≡ b }
{}

/// A text is an item of at most one interval.
pub fn one_item_one_interval()
    ensures { (item : List ℕ) (a b : Interval) → IsItem item a → IsItem item b → a ≡ b }
{}

/// A text is a range of at most one list of intervals.
pub fn one_range_one_list()
    ensures { (text : List ℕ) (a b : List Interval) → IsRange text a → IsRange text b → a ≡ b }
{}

/// A value breaks the rules on types in at most one way.
pub fn a_value_breaks_type_once()
    ensures { (value : List ℕ) (meta : Meta) (a b : Broken) → BreaksType value meta a → BreaksType value meta b
        → a ≡ b }
{}

/// It breaks the rules on ranges in at most one way.
pub fn a_value_breaks_range_once()
    ensures { (value : List ℕ) (meta : Meta) (a b : Broken) → BreaksRange value meta a → BreaksRange value meta b
        → a ≡ b }
{}

/// It breaks the rule on enumerations in at most one way.
pub fn a_value_breaks_enum_once()
    ensures { (value : List ℕ) (meta : Meta) (a b : Broken) → BreaksEnum value meta a → BreaksEnum value meta b
        → a ≡ b }
{}
