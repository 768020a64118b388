//! From a namespace and parts to their canonical spelling.
ghost use Rattle.std.specs.Prelude.{◌≡◌, ◌++◌, OnOk, string_bytes, encode_utf8};
ghost use Rattle.std.specs.List.{flat_map};
ghost use Rattle.model_names.specs.Spelling.{word_of, escaped, spelled, path_of_parts};

use crate::Memory;
use crate::measuring::escapes;
use crate::part_list::PartList;
use model_names::Namespace;

/// What stands before the first slash of a name.
pub fn word(namespace: Namespace) -> &'static str
    ensures { result.now ≡ word_of namespace }
{
    match namespace {
        Namespace::Cascading => "",
        Namespace::Spec => "spec:",
        Namespace::Proc => "proc:",
        Namespace::Dir => "dir:",
        Namespace::User => "user:",
        Namespace::System => "system:",
        Namespace::Default => "default:",
    }
}

/// Appends a slash before each spelled part, and one slash where there is none.
pub fn push_path(text: &mut String, parts: &PartList) -> Result<(), Memory>
    ensures { OnOk result (string_bytes text.new ≡ string_bytes text.old ++ path_of_parts parts.now) }
{
    if parts.is_empty() {
        return text.push('/');
    }
    for part in parts.iter() {
        text.push('/')?;
        push_spelled(text, part)?;
    }
    Ok(())
}

fn push_spelled(text: &mut String, part: &str) -> Result<(), Memory>
    ensures { OnOk result (string_bytes text.new ≡ string_bytes text.old ++ spelled part.now) }
{
    if part.is_empty() {
        return text.push('%');
    }
    if part == "%" || part == "." || part == ".." {
        text.push('\\')?;
        return text.push_str(part);
    }
    push_escaped(text, part)
}

/// Appends a part with its escapes. Most have none, and are copied as they are.
fn push_escaped(text: &mut String, part: &str) -> Result<(), Memory>
    ensures { OnOk result (string_bytes text.new ≡ string_bytes text.old ++ flat_map escaped part.now) }
{
    if escapes(part) == 0 {
        text.push_str(part)
    } else {
        push_letters(text, part)
    }
}

fn push_letters(text: &mut String, part: &str) -> Result<(), Memory>
    ensures { OnOk result (string_bytes text.new ≡ string_bytes text.old ++ flat_map escaped part.now) }
{
    for letter in part.chars() {
        push_letter(text, letter)?;
    }
    Ok(())
}

fn push_letter(text: &mut String, letter: char) -> Result<(), Memory>
    ensures { OnOk result (string_bytes text.new ≡ string_bytes text.old ++ flat_map escaped (encode_utf8 letter)) }
{
    match letter {
        '\\' => text.push_str("\\\\"),
        '/' => text.push_str("\\/"),
        _ => text.push(letter),
    }
}
