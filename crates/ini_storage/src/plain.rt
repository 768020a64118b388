//! A line without a backslash: each byte stands for itself, so its two texts are pieces of it, and nothing is copied.
ghost use Rattle.std.specs.Prelude.{◌≡◌, false, map};
ghost use Rattle.std.specs.Option.{option_map};
ghost use Rattle.model_ini.specs.Line.{meaning, meaning_behind_blanks, meaning_of_sides};
ghost use Rattle.model_ini.specs.Signs.{cut_at_equals, without_back, without_front};
ghost use Rattle.model_ini.specs.declared.signs.Sign.TheVariants.{Plain};
ghost use Rattle.ini_storage.specs.Plain.{cut_at_byte, has_backslash, is_blank_byte, plain_view, trimmed_bytes};

use file_lines::without_return;

/// Such a line is skipped, is an entry, or can't be read.
#[derive(Clone, Copy)]
pub enum Plainly<'a> {
    Skipped,
    Pair { name: &'a [u8], value: &'a [u8] },
    Unreadable,
}

/// Whether a backslash stands in a line.
pub fn has_backslash(line: &[u8]) -> bool
    ensures { result ≡ has_backslash line.now }
{
    line.contains(&b'\\')
}

/// What a line without a backslash says.
pub fn plain_meaning(line: &[u8]) -> Plainly<'_>
    requires { has_backslash line.now ≡ false }
    ensures { plain_view result ≡ meaning line.now }
{
    meaning_of_bytes(behind_blanks(without_return(line)))
}

/// What bytes say that begin with no blank.
fn meaning_of_bytes(bytes: &[u8]) -> Plainly<'_>
    requires { has_backslash bytes.now ≡ false }
    ensures { plain_view result ≡ meaning_behind_blanks (map Plain bytes.now) }
{
    let [first, ..] = bytes else {
        return Plainly::Skipped;
    };
    match *first {
        b'#' => Plainly::Skipped,
        b';' => Plainly::Skipped,
        b'[' => Plainly::Unreadable,
        _ => entry(bytes),
    }
}

/// The entry of two sides.
fn entry(bytes: &[u8]) -> Plainly<'_>
    requires { has_backslash bytes.now ≡ false }
    ensures { plain_view result ≡ meaning_of_sides (cut_at_equals (map Plain bytes.now)) }
{
    match sides(bytes) {
        Some((name, value)) => Plainly::Pair {
            name: without_blanks(name),
            value: without_blanks(value),
        },
        None => Plainly::Unreadable,
    }
}

/// The bytes before and behind the first equals sign.
fn sides(bytes: &[u8]) -> Option<(&[u8], &[u8])>
    ensures { option_map (λ sides. (sides.0.now, sides.1.now)) result ≡ cut_at_byte bytes.now }
{
    for (at, byte) in bytes.iter().enumerate() {
        if *byte == b'=' {
            return Some((&bytes[..at], &bytes[at + 1..]));
        }
    }
    None
}

/// Bytes without the blanks at both ends.
fn without_blanks(side: &[u8]) -> &[u8]
    ensures { result.now ≡ trimmed_bytes side.now }
{
    before_blanks(behind_blanks(side))
}

/// What stands behind the blanks at the front.
fn behind_blanks(bytes: &[u8]) -> &[u8]
    ensures { result.now ≡ without_front is_blank_byte bytes.now }
{
    let mut rest = bytes;
    while let [first, more @ ..] = rest {
        if !is_blank(*first) {
            break;
        }
        rest = more;
    }
    rest
}

/// What stands before the blanks at the end.
fn before_blanks(bytes: &[u8]) -> &[u8]
    ensures { result.now ≡ without_back is_blank_byte bytes.now }
{
    let mut end = bytes.len();
    while end > 0 && is_blank(bytes[end - 1]) {
        end -= 1;
    }
    &bytes[..end]
}

fn is_blank(byte: u8) -> bool
    ensures { result ≡ is_blank_byte byte }
{
    byte == b' ' || byte == b'\t'
}
