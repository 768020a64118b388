//! The parts of names: those of elements, and a name with one part more.
ghost use Rattle.std.specs.Prelude.{◌≡◌, IfOk, MatchOption, string_bytes};
ghost use Rattle.model_names.specs.ArrayPart.{is_array_like as is_like, array_part as part_of, without_underscores, are_digits};
ghost use Rattle.general_words.specs.Texts.{is_text};
ghost use Rattle.model_names.specs.WellFormed.{IsName};
ghost use Rattle.key_name.specs.Children.{child_of};

use file_lines::hand_on_memory;
use key_meta::Memory;
use key_name::KeyName;
use std::alloc::Global;

/// The name with a part behind its own; none where that is no name.
pub fn child(above: &KeyName, part: &str) -> Result<Option<KeyName>, Memory>
    ensures { IfOk result (λ found. MatchOption found
        (IsName (child_of above.now part.now) → ⊥)
        (λ name. (name ≡ child_of above.now part.now) × IsName name)) }
{
    match above.child(part) {
        Ok(name) => Ok(Some(name)),
        Err(fault) => {
            hand_on_memory(fault)?;
            Ok(None)
        }
    }
}

/// The part of an element. One underscore less than the index has digits stands before them.
pub fn array_part(alloc: Global, index: usize) -> Result<String, Memory>
    ensures { IfOk result (λ part. string_bytes part ≡ part_of index) }
{
    let digits = format!(in alloc; "{index}")?;
    let mut part = String::from_str(alloc, "#")?;
    for _written in 0..digits.len().saturating_sub(1) {
        part.push('_')?;
    }
    part.push_str(&digits)?;
    Ok(part)
}

/// Whether a part looks like that of an element: `#`, then only underscores, then one or more digits.
pub fn is_array_like(part: &str) -> bool
    ensures { result ≡ is_like part.now }
{
    match part.strip_prefix('#') {
        Some(behind) => are_digits(behind_underscores(behind)),
        None => false,
    }
}

/// What stands behind the underscores at the front.
fn behind_underscores(text: &str) -> &str
    ensures { result.now ≡ without_underscores text.now }
{
    let mut left = text;
    while let Some(rest) = left.strip_prefix('_') {
        left = rest;
    }
    left
}

fn are_digits(text: &str) -> bool
    ensures { result ≡ are_digits text.now }
{
    !text.is_empty() && text.as_bytes().iter().all(|b| b.is_ascii_digit())
}

/// Whether two texts are one.
pub fn are_same(text: &str, other: &str) -> bool
    ensures { result ≡ is_text text.now other.now }
{
    text == other
}
