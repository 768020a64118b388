//! The types by their words, and the values that each takes.
ghost use Rattle.std.specs.Prelude.{◌≡◌, true, false};
ghost use Rattle.model_rules.specs.Types.{IsOfKind, kind_of};
ghost use Rattle.model_rules.specs.declared.kinds.Kind.TheVariants.{AsciiByte, Number};

use crate::numbers::number_of;
use model_rules::Kind;

/// The kind of values that a type takes.
#[tactic(auto, unfolding(model_rules::specs::Types::kind_of))]
pub fn kind_of(word: &str) -> Option<Kind>
    ensures { result ≡ kind_of word.now }
{
    if word == "string" {
        Some(Kind::AnyText)
    } else if word == "any" {
        Some(Kind::AnyText)
    } else if word == "enum" {
        Some(Kind::AnyText)
    } else if word == "boolean" {
        Some(Kind::Bit)
    } else if word == "char" {
        Some(Kind::AsciiByte)
    } else if word == "octet" {
        Some(numbers_between(0, 255))
    } else if word == "short" {
        Some(numbers_between(-32768, 32767))
    } else if word == "unsigned_short" {
        Some(numbers_between(0, 65535))
    } else if word == "long" {
        Some(numbers_between(-2147483648, 2147483647))
    } else if word == "unsigned_long" {
        Some(numbers_between(0, 4294967295))
    } else if word == "long_long" {
        Some(numbers_between(-9223372036854775808, 9223372036854775807))
    } else if word == "unsigned_long_long" {
        Some(numbers_between(0, 18446744073709551615))
    } else {
        None
    }
}

fn numbers_between(low: i128, high: i128) -> Kind
    ensures { result ≡ Number low high }
{
    Kind::Number { low, high }
}

/// Whether a value is of a kind.
pub fn is_of_kind(kind: Kind, value: &str) -> bool
    ensures yes { result ≡ true → IsOfKind kind value.now }
    ensures no { result ≡ false → IsOfKind kind value.now → ⊥ }
{
    match kind {
        Kind::AnyText => true,
        Kind::Bit => value == "1" || value == "0",
        Kind::AsciiByte => is_ascii_byte(value),
        Kind::Number { low, high } => is_between(low, high, value),
    }
}

/// Whether a value is one byte of ASCII.
fn is_ascii_byte(value: &str) -> bool
    ensures yes { result ≡ true → IsOfKind AsciiByte value.now }
    ensures no { result ≡ false → IsOfKind AsciiByte value.now → ⊥ }
{
    let bytes = value.as_bytes();
    bytes.len() == 1 && bytes[0] < 128
}

/// Whether a value is a number from a lowest to a highest one.
fn is_between(low: i128, high: i128, value: &str) -> bool
    ensures yes { result ≡ true → IsOfKind (Number low high) value.now }
    ensures no { result ≡ false → IsOfKind (Number low high) value.now → ⊥ }
{
    match number_of(value) {
        Some(number) => low <= number && number <= high,
        None => false,
    }
}
