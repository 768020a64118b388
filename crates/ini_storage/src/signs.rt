//! A line as signs.
ghost use Rattle.std.specs.Prelude.{◌≡◌, ◌∷◌, ◌++◌, ℕ, List, IfOk};
ghost use Rattle.model_ini.specs.Signs.{signs};
ghost use Rattle.ini_storage.specs.Held.{held};

use key_meta::Memory;
use model_ini::Sign;
use std::alloc::Global;

/// The signs of a line.
pub fn signs_of(alloc: Global, line: &[u8]) -> Result<Vec<Sign>, Memory>
    ensures { IfOk result (λ found. found.items ≡ signs line.now) }
{
    let mut found = Vec::new(alloc);
    let mut covers = false;
    for byte in line {
        covers = push_sign(&mut found, covers, *byte)?;
    }
    if covers {
        found.push(Sign::Plain(b'\\'))?;
    }
    Ok(found)
}

/// Appends the sign that one more byte ends, and answers whether the byte is a backslash that covers the next one.
fn push_sign(found: &mut Vec<Sign>, covered: bool, byte: u8) -> Result<bool, Memory>
    ensures { IfOk result (λ covers. (rest : List ℕ) → found.new.items ++ signs (held covers rest) ≡ found.old.items ++ signs (held covered (byte ∷ rest))) }
{
    if covered {
        found.push(Sign::Covered(byte))?;
        return Ok(false);
    }
    if byte == b'\\' {
        return Ok(true);
    }
    found.push(Sign::Plain(byte))?;
    Ok(false)
}
