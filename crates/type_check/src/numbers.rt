//! Texts as numbers of 128 bits.
ghost use Rattle.std.specs.Prelude.{◌<◌, ◌^◌, ℤ, MatchOption, SomeIff};
ghost use Rattle.std.specs.Str.Parse.{IsNumeral, digits_value};
ghost use Rattle.model_rules.specs.Number.{AreDigitsOf, IsNumber};

/// The number that a text is.
pub fn number_of(text: &str) -> Option<i128>
    ensures { MatchOption result ((number : ℤ) → IsNumber text.now number → ⊥) (IsNumber text.now) }
{
    match text.strip_prefix('-') {
        Some(digits) => signed_number_of(true, digits),
        None => signed_number_of(false, text),
    }
}

/// The number of some digits, with or without a minus.
pub fn signed_number_of(minus: bool, digits: &str) -> Option<i128>
    ensures { MatchOption result ((number : ℤ) → AreDigitsOf minus digits.now number → ⊥) (AreDigitsOf minus digits.now) }
{
    let magnitude = magnitude_of(digits)?;
    if minus {
        0i128.checked_sub_unsigned(magnitude)
    } else {
        0i128.checked_add_unsigned(magnitude)
    }
}

/// The number of some digits.
fn magnitude_of(digits: &str) -> Option<u128>
    ensures { SomeIff result (IsNumeral 10 digits.now × (digits_value 10 digits.now < 2 ^ 128)) (digits_value 10 digits.now) }
{
    // `parse` takes a plus, which no number has.
    if digits.starts_with('+') {
        return None;
    }
    match digits.parse::<u128>() {
        Ok(magnitude) => Some(magnitude),
        Err(_) => None,
    }
}
