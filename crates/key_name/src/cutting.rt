//! What stands behind a text's first slash is cut into raw parts.
ghost use Rattle.std.specs.Prelude.{◌≡◌, ◌+◌, ◌-◌, ◌<◌, ◌≤◌, ◌∷◌, [], IfOk, IfSome, length, false, not, ◌&&◌, ◌==◌};
ghost use Rattle.std.specs.List.{slice_split};
ghost use Rattle.std.specs.Option.{option_map_or};
ghost use Rattle.model_names.specs.RawParts.{raw_parts};
ghost use Rattle.model_names.specs.Refuses.{placed};
ghost use Rattle.key_name.specs.Raws.{first_len, with_places};

use crate::Memory;
use crate::raw_parts::Raw;
use std::alloc::Global;

/// The raw parts of a path at the end of a text, of which the length is given.
pub fn cut<'a>(alloc: Global, end: usize, path: &'a str) -> Result<Vec<Raw<'a>>, Memory>
    requires { length path.now ≤ end }
    ensures { IfOk result (λ raws. with_places raws.items ≡ placed (end - length path.now) (raw_parts path.now)) }
{
    let mut raws = Vec::new(alloc);
    let mut rest = Some(path);
    while let Some(left) = rest {
        let (raw, behind) = cut_first(left);
        let at = end - left.len();
        raws.push(Raw { at, text: raw })?;
        rest = behind;
    }
    Ok(raws)
}

/// The first raw part of a path, and what stands behind the slash that ends it.
fn cut_first(path: &str) -> (&str, Option<&str>)
    ensures parts { raw_parts path.now ≡ result.0.now ∷ option_map_or (λ rest. raw_parts rest.now) result.1 [] }
    ensures first { length result.0.now ≤ length path.now }
    ensures behind { IfSome result.1 (λ rest. length result.0.now + length rest.now + 1 ≡ length path.now) }
{
    let end = first_len(path);
    if end < path.len() {
        (&path[..end], Some(&path[end + 1..]))
    } else {
        (path, None)
    }
}

/// How many bytes the first raw part of a path has: it ends at the first slash that no backslash escapes.
fn first_len(path: &str) -> usize
    ensures { result ≡ first_len false path.now }
{
    let mut is_escaped = false;
    for (i, b) in path.as_bytes().iter().enumerate() {
        if is_bare(is_escaped, *b, b'/') {
            return i;
        }
        is_escaped = is_bare(is_escaped, *b, b'\\');
    }
    path.len()
}

/// Whether a byte is the one that is looked for, and stands behind no escape.
pub fn is_bare(is_escaped: bool, byte: u8, wanted: u8) -> bool
    ensures { result ≡ (not is_escaped && (byte == wanted)) }
{
    !is_escaped && byte == wanted
}

/// What stands before the first of some letter in a text, and what stands behind it.
pub fn cut_at(text: &str, letter: char) -> (&str, Option<&str>)
    requires { letter < 128 }
    ensures parts { slice_split (λ b. b == letter) text.now
        ≡ result.0.now ∷ option_map_or (λ rest. slice_split (λ b. b == letter) rest.now) result.1 [] }
    ensures behind { IfSome result.1 (λ rest. length rest.now < length text.now) }
{
    match text.split_once(letter) {
        Some((part, rest)) => (part, Some(rest)),
        None => (text, None),
    }
}
