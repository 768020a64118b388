//! The words for 1 and for 0.
ghost use Rattle.std.specs.Prelude.{◌≡◌};
ghost use Rattle.std.specs.Option.{option_map};
ghost use Rattle.model_specified.specs.Specified.{bit_of, bit_under, is_boolean};

use key_meta::Meta;

/// The bit in place of a value, where metadata says that it is a boolean and it is one of the words.
pub fn bit_under(meta: &Meta, value: &str) -> Option<&'static str>
    ensures { option_map (λ bit. bit.now) result ≡ bit_under meta.now value.now }
{
    if is_boolean(meta) {
        bit_of(value)
    } else {
        None
    }
}

/// Whether metadata says that the value is a boolean.
fn is_boolean(meta: &Meta) -> bool
    ensures { result ≡ is_boolean meta.now }
{
    match meta.get("type") {
        Some(word) => word == "boolean",
        None => false,
    }
}

/// The bit that a word stands for.
fn bit_of(value: &str) -> Option<&'static str>
    ensures { option_map (λ bit. bit.now) result ≡ bit_of value.now }
{
    if value == "true" || value == "yes" || value == "on" || value == "enabled" {
        Some("1")
    } else if value == "false" || value == "no" || value == "off" || value == "disabled" {
        Some("0")
    } else {
        None
    }
}
