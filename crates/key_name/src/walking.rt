//! From raw parts to the parts that they lead to.
ghost use Rattle.std.specs.Prelude.{◌≡◌, [], IfOk, OnOk, Some, false, not, ◌&&◌, ◌==◌, ◌++◌, if◌then◌else◌, map, option_and_then, string_bytes, encode_utf8, List};
ghost use Rattle.model_names.specs.Name.{Part};
ghost use Rattle.model_names.specs.Spells.{Move, Adds, meaning, moved, part_of_text, unescaped, walked};
ghost use Rattle.key_name.specs.Raws.{texts};

use crate::Memory;
use crate::arrays::{array_digits, array_part};
use crate::raw_parts::Raw;
use std::alloc::Global;

/// The parts that raw parts lead to, where each has a meaning.
pub fn walk(alloc: Global, raws: &[Raw]) -> Result<Vec<String>, Memory>
    ensures { IfOk result (λ parts. (path : List Part) → walked [] (texts raws.now) ≡ Some path → map (λ part. string_bytes part) parts.items ≡ path) }
{
    let mut parts = Vec::new(alloc);
    for raw in raws {
        step(alloc, &mut parts, raw.text)?;
    }
    Ok(parts)
}

/// Goes on by one raw part: an empty one and `.` stay, `..` goes up, and any other adds a part.
fn step(alloc: Global, parts: &mut Vec<String>, raw: &str) -> Result<(), Memory>
    ensures { OnOk result ((move : Move) → meaning raw.now ≡ Some move → map (λ part. string_bytes part) parts.new.items ≡ moved (map (λ part. string_bytes part) parts.old.items) move) }
{
    match raw {
        "" | "." => {}
        ".." => {
            parts.pop();
        }
        _ => parts.push(part_of(alloc, raw)?)?,
    }
    Ok(())
}

/// The part that a raw part adds.
fn part_of(alloc: Global, raw: &str) -> Result<String, Memory>
    ensures { IfOk result (λ text. (part : Part) → meaning raw.now ≡ Some (Adds part) → string_bytes text ≡ part) }
{
    match raw {
        "%" => Ok(String::new(alloc)),
        "\\%" => String::from_str(alloc, "%"),
        "\\." => String::from_str(alloc, "."),
        "\\.." => String::from_str(alloc, ".."),
        _ => part_of_text(alloc, raw),
    }
}

/// The part that a raw part stands for which is none of the reserved ones.
fn part_of_text(alloc: Global, raw: &str) -> Result<String, Memory>
    ensures { IfOk result (λ text. (part : Part) → option_and_then part_of_text (unescaped raw.now) ≡ Some part → string_bytes text ≡ part) }
{
    match array_digits(raw) {
        Some(digits) => array_part(alloc, digits),
        None => unescaped(alloc, raw),
    }
}

/// A raw part without its escapes. Most have none, and are copied as they are.
fn unescaped(alloc: Global, raw: &str) -> Result<String, Memory>
    ensures { IfOk result (λ text. (part : Part) → unescaped raw.now ≡ Some part → string_bytes text ≡ part) }
{
    if raw.as_bytes().contains(&b'\\') {
        without_escapes(alloc, raw)
    } else {
        String::from_str(alloc, raw)
    }
}

fn without_escapes(alloc: Global, raw: &str) -> Result<String, Memory>
    ensures { IfOk result (λ text. (part : Part) → unescaped raw.now ≡ Some part → string_bytes text ≡ part) }
{
    let mut text = String::new(alloc);
    let mut waits = false;
    for letter in raw.chars() {
        waits = push_unescaped(&mut text, waits, letter)?;
    }
    Ok(text)
}

/// Appends a letter. A backslash is left out, and it is told whether it waits for the letter that it escapes.
fn push_unescaped(text: &mut String, waits: bool, letter: char) -> Result<bool, Memory>
    ensures waits { IfOk result (λ next. next ≡ (not waits && (letter == 92))) }
    ensures text { IfOk result (λ next. string_bytes text.new ≡ string_bytes text.old ++ (if next then [] else encode_utf8 letter)) }
{
    if !waits && letter == '\\' {
        return Ok(true);
    }
    text.push(letter)?;
    Ok(false)
}
