//! What is wrong with raw parts, each kind of fault in a pass of its own.
ghost use Rattle.std.specs.Prelude.{◌≡◌, ◌+◌, ◌^◌, ◌<◌, length, ◌&&◌, ◌||◌, ◌==◌, not, false};
ghost use Rattle.std.specs.List.{position};
ghost use Rattle.std.specs.Option.{option_map};
ghost use Rattle.std.specs.Result.{result_err};
ghost use Rattle.general_words.specs.Searches.{first_some};
ghost use Rattle.model_names.specs.Refuses.{bad_escape, bad_array};
ghost use Rattle.model_names.specs.Spells.{read_letters};
ghost use Rattle.key_name.specs.Raws.{with_places};

use crate::arrays::is_bad_array;
use crate::cutting::is_bare;
use crate::raw_parts::Raw;

/// The place of the first backslash that escapes nothing.
pub fn first_bad_escape(raws: &[Raw]) -> Option<usize>
    ensures { result ≡ first_some bad_escape (with_places raws.now) }
{
    for raw in raws {
        if let Some(at) = bad_escape(raw) {
            return Some(at);
        }
    }
    None
}

/// The place of the first raw part that looks like an array's and has no canonical form.
pub fn first_bad_array(raws: &[Raw]) -> Option<usize>
    ensures { result ≡ first_some bad_array (with_places raws.now) }
{
    for raw in raws {
        if is_bad_array(raw.text) {
            return Some(raw.at);
        }
    }
    None
}

/// The place of the first NUL.
pub fn first_nul(text: &str) -> Option<usize>
    ensures { result ≡ position (λ b. b == 0) text.now }
{
    text.as_bytes().iter().position(|b| *b == 0)
}

/// The place of the first backslash of a raw part that escapes nothing. The literal parts have none.
fn bad_escape(raw: &Raw) -> Option<usize>
    ensures { result ≡ bad_escape (raw.now.at, raw.now.text.now) }
{
    match raw.text {
        "\\%" | "\\." | "\\.." => None,
        _ => bad_escape_in(raw.at, raw.text),
    }
}

fn bad_escape_in(at: usize, text: &str) -> Option<usize>
    requires { at + length text.now < 2 ^ 64 }
    ensures { result ≡ option_map (λ place. at + place) (result_err (read_letters text.now)) }
{
    let mut waits = false;
    for (i, b) in text.as_bytes().iter().enumerate() {
        if escapes_nothing(waits, *b) {
            return Some(at + i - 1);
        }
        waits = is_bare(waits, *b, b'\\');
    }
    if waits {
        Some(at + text.len() - 1)
    } else {
        None
    }
}

/// Whether a backslash stands before a byte that it can't escape.
fn escapes_nothing(waits: bool, byte: u8) -> bool
    ensures { result ≡ (waits && not ((byte == 92) || (byte == 47))) }
{
    waits && byte != b'\\' && byte != b'/'
}
