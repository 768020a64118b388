//! What a line says.
ghost use Rattle.std.specs.Prelude.{◌≡◌, IfOk};
ghost use Rattle.model_ini.specs.Signs.{cut_at_equals};
ghost use Rattle.model_ini.specs.Line.{meaning, meaning_behind_blanks, meaning_of_sides};
ghost use Rattle.ini_storage.specs.MeaningView.{meaning_view};

use crate::sides::{behind_blanks, sides, text_of_signs, without_blanks};
use crate::signs::signs_of;
use file_lines::without_return;
use key_meta::Memory;
use model_ini::Sign;
use std::alloc::Global;

/// A line is skipped, is an entry, or can't be read.
#[derive(Drop)]
pub enum Meaning {
    Skipped,
    Pair { name: Vec<u8>, value: Vec<u8> },
    Unreadable,
}

/// What a line says.
pub fn meaning_of(alloc: Global, line: &[u8]) -> Result<Meaning, Memory>
    ensures { IfOk result (λ found. meaning_view found ≡ meaning line.now) }
{
    let signs = signs_of(alloc, without_return(line))?;
    meaning_of_signs(alloc, behind_blanks(&signs))
}

/// What signs say that begin with no blank.
fn meaning_of_signs(alloc: Global, signs: &[Sign]) -> Result<Meaning, Memory>
    ensures { IfOk result (λ found. meaning_view found ≡ meaning_behind_blanks signs.now) }
{
    let [first, ..] = signs else {
        return Ok(Meaning::Skipped);
    };
    match *first {
        Sign::Plain(b'#') => Ok(Meaning::Skipped),
        Sign::Plain(b';') => Ok(Meaning::Skipped),
        Sign::Plain(b'[') => Ok(Meaning::Unreadable),
        _ => entry(alloc, signs),
    }
}

/// The entry of two sides.
fn entry(alloc: Global, signs: &[Sign]) -> Result<Meaning, Memory>
    ensures { IfOk result (λ found. meaning_view found ≡ meaning_of_sides (cut_at_equals signs.now)) }
{
    let Some((left, right)) = sides(signs) else {
        return Ok(Meaning::Unreadable);
    };
    let Some(name) = text_of_signs(alloc, without_blanks(left))? else {
        return Ok(Meaning::Unreadable);
    };
    let Some(value) = text_of_signs(alloc, without_blanks(right))? else {
        return Ok(Meaning::Unreadable);
    };
    Ok(Meaning::Pair { name, value })
}
