//! Texts and names, in quotes where they need them.
ghost use Rattle.std.specs.Prelude.{◌≡◌, IfOk, string_bytes};
ghost use Rattle.std.specs.List.{list_all};
ghost use Rattle.model_quoting.specs.Quoted.{is_plain_byte, shown, shown_text};

use crate::quoting::quoted;
use key_meta::Memory;
use key_name::KeyName;
use std::alloc::Global;

/// A text on one line: as it is where it needs no quotes, and else quoted. A text needs quotes that has a blank, a
/// quote or a control byte. It fails only for want of memory.
pub fn shown_text(alloc: Global, text: &str) -> Result<String, Memory>
    ensures { IfOk result (λ line. string_bytes line ≡ shown_text text.now) }
{
    if needs_no_quotes(text.as_bytes()) {
        return String::from_str(alloc, text);
    }
    quoted(alloc, text)
}

fn needs_no_quotes(text: &[u8]) -> bool
    ensures { result ≡ list_all is_plain_byte text.now }
{
    text.iter()
        .all(|&byte| byte > 32 && byte != 127 && byte != b'"')
}

/// A name on one line: its canonical spelling, quoted where it needs to be. It fails only for want of memory.
pub fn shown(alloc: Global, name: &KeyName) -> Result<String, Memory>
    ensures { IfOk result (λ line. string_bytes line ≡ shown name.now) }
{
    let text = name.text()?;
    shown_text(alloc, text.as_str())
}
