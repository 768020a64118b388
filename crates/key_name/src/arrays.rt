//! Parts that number the items of an array.
ghost use Rattle.std.specs.Prelude.{◌≡◌, ◌&&◌, IfOk, IfNone, IfSome, OnSome, true, false, nat_le, is_none, is_some, string_bytes};
ghost use Rattle.std.specs.Str.Parse.{digits_value};
ghost use Rattle.model_names.specs.ArrayPart.{last_index, without_underscores, are_digits, is_array_like, digits_of, has_leading_zero, is_index, is_canonical, part_of_digits, canonical_part};
ghost use Rattle.key_name.specs.Children.{is_misspelled};

use crate::Memory;
use std::alloc::Global;

/// The last index that an array may have.
const LAST_INDEX: u64 = 9_223_372_036_854_775_807;

/// Whether a part looks like an array's and has no canonical form.
pub fn is_bad_array(part: &str) -> bool
    ensures { result ≡ (is_array_like part.now && is_none (canonical_part part.now)) }
{
    match array_digits(part) {
        Some(digits) => !has_canonical_form(part, digits),
        None => false,
    }
}

/// Whether a part looks like an array's and is not the canonical one of its index.
pub fn is_misspelled(part: &str) -> bool
    ensures { result ≡ is_misspelled part.now }
{
    match array_digits(part) {
        Some(digits) => !is_canonical(part, digits),
        None => false,
    }
}

/// Whether a part is an item of an array.
pub fn is_array_part(part: &str) -> bool
    ensures { result ≡ (is_array_like part.now && is_canonical part.now) }
{
    match array_digits(part) {
        Some(digits) => is_canonical(part, digits),
        None => false,
    }
}

/// The digits of a part that looks like an array's: `#`, then only underscores, then one or more digits.
pub fn array_digits(part: &str) -> Option<&str>
    ensures none { IfNone result (is_array_like part.now ≡ false) }
    ensures like { OnSome result (is_array_like part.now ≡ true) }
    ensures digits { IfSome result (λ digits. digits.now ≡ digits_of part.now) }
{
    let Some(behind) = part.strip_prefix('#') else {
        return None;
    };
    let digits = skip_underscores(behind);
    if are_digits(digits) {
        Some(digits)
    } else {
        None
    }
}

/// The part of an array that an index's digits stand for: one underscore less than there are digits stands before them.
pub fn array_part(alloc: Global, digits: &str) -> Result<String, Memory>
    ensures { IfOk result (λ part. string_bytes part ≡ part_of_digits digits.now) }
{
    let mut part = String::from_str(alloc, "#")?;
    for _written in 0..digits.len().saturating_sub(1) {
        part.push('_')?;
    }
    part.push_str(digits)?;
    Ok(part)
}

/// Whether the digits of an array's part are an index, with all its underscores before it or with none.
fn has_canonical_form(part: &str, digits: &str) -> bool
    requires like { is_array_like part.now ≡ true }
    requires digits { digits.now ≡ digits_of part.now }
    ensures { result ≡ is_some (canonical_part part.now) }
{
    let lead = part.len() - digits.len();
    is_index(digits) && (lead == 1 || lead == digits.len())
}

/// Whether the digits of an array's part are an index, with all its underscores before it.
fn is_canonical(part: &str, digits: &str) -> bool
    requires like { is_array_like part.now ≡ true }
    requires digits { digits.now ≡ digits_of part.now }
    ensures { result ≡ is_canonical part.now }
{
    let lead = part.len() - digits.len();
    is_index(digits) && lead == digits.len()
}

/// Whether digits are an index.
fn is_index(digits: &str) -> bool
    requires { are_digits digits.now ≡ true }
    ensures { result ≡ is_index digits.now }
{
    !has_leading_zero(digits) && is_within_limit(digits)
}

/// Whether a zero stands before other digits.
fn has_leading_zero(digits: &str) -> bool
    ensures { result ≡ has_leading_zero digits.now }
{
    digits.len() > 1 && digits.as_bytes()[0] == b'0'
}

/// Whether digits are the last index, or one before it.
fn is_within_limit(digits: &str) -> bool
    requires { are_digits digits.now ≡ true }
    ensures { result ≡ nat_le (digits_value 10 digits.now) last_index }
{
    match digits.parse::<u64>() {
        Ok(index) => index <= LAST_INDEX,
        Err(_) => false,
    }
}

/// What stands behind the underscores at the front.
fn skip_underscores(text: &str) -> &str
    ensures { result.now ≡ without_underscores text.now }
{
    let mut left = text;
    while let Some(rest) = left.strip_prefix('_') {
        left = rest;
    }
    left
}

fn are_digits(text: &str) -> bool
    ensures { result ≡ are_digits text.now }
{
    !text.is_empty() && text.as_bytes().iter().all(|b| b.is_ascii_digit())
}
