//! The two sides of an entry: trimmed, cut, and the texts that they stand for.
ghost use Rattle.std.specs.Prelude.{◌≡◌, IfOk};
ghost use Rattle.std.specs.Option.{option_map};
ghost use Rattle.model_ini.specs.Signs.{text_of, is_blank, without_front, without_back, trimmed, cut_at_equals};

use crate::escapes::{byte, stands_blank, stands_equals};
use key_meta::Memory;
use model_ini::Sign;
use std::alloc::Global;

/// The text that signs stand for; none where one of them stands for no byte.
pub fn text_of_signs(alloc: Global, side: &[Sign]) -> Result<Option<Vec<u8>>, Memory>
    ensures { IfOk result (λ found. option_map (λ text. text.items) found ≡ text_of side.now) }
{
    let mut text = Vec::new(alloc);
    for sign in side {
        let Some(byte) = byte(*sign) else {
            return Ok(None);
        };
        text.push(byte)?;
    }
    Ok(Some(text))
}

/// What stands behind the blanks at the front.
pub fn behind_blanks(signs: &[Sign]) -> &[Sign]
    ensures { result.now ≡ without_front is_blank signs.now }
{
    let mut rest = signs;
    while let [first, more @ ..] = rest {
        if !stands_blank(*first) {
            break;
        }
        rest = more;
    }
    rest
}

/// What stands before the blanks at the end.
fn before_blanks(signs: &[Sign]) -> &[Sign]
    ensures { result.now ≡ without_back is_blank signs.now }
{
    let mut end = signs.len();
    while end > 0 && stands_blank(signs[end - 1]) {
        end -= 1;
    }
    &signs[..end]
}

/// Signs without the blanks at both ends.
pub fn without_blanks(side: &[Sign]) -> &[Sign]
    ensures { result.now ≡ trimmed side.now }
{
    before_blanks(behind_blanks(side))
}

/// The signs before and behind the first equals sign.
pub fn sides(signs: &[Sign]) -> Option<(&[Sign], &[Sign])>
    ensures { option_map (λ sides. (sides.0.now, sides.1.now)) result ≡ cut_at_equals signs.now }
{
    for (at, sign) in signs.iter().enumerate() {
        if stands_equals(*sign) {
            return Some((&signs[..at], &signs[at + 1..]));
        }
    }
    None
}
