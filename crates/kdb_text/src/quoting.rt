//! Texts in quotes.
ghost use Rattle.std.specs.Prelude.{◌≡◌, ◌⊎◌, ◌<◌, ◌/◌, ◌%◌, ◌++◌, ◌∷◌, [], IfOk, OnOk, string_bytes, encode_utf8};
ghost use Rattle.std.specs.List.{flat_map};
ghost use Rattle.model_quoting.specs.Quoted.{hex_digit, quoted, quoted_byte};

use key_meta::Memory;
use std::alloc::Global;

/// A text in quotes, on one line: its quotes, backslashes and control bytes are written with a backslash. It fails only
/// for want of memory.
pub fn quoted(alloc: Global, text: &str) -> Result<String, Memory>
    ensures { IfOk result (λ line. string_bytes line ≡ quoted text.now) }
{
    let mut line = String::new(alloc);
    line.push('"')?;
    push_quoted(&mut line, text)?;
    line.push('"')?;
    Ok(line)
}

fn push_quoted(line: &mut String, text: &str) -> Result<(), Memory>
    ensures { OnOk result (string_bytes line.new ≡ string_bytes line.old ++ flat_map quoted_byte text.now) }
{
    for letter in text.chars() {
        push_quoted_letter(line, letter)?;
    }
    Ok(())
}

/// Appends a letter as it stands inside quotes. No byte of a letter beyond ASCII needs an escape.
fn push_quoted_letter(line: &mut String, letter: char) -> Result<(), Memory>
    ensures { OnOk result (string_bytes line.new ≡ string_bytes line.old ++ flat_map quoted_byte (encode_utf8 letter)) }
{
    if letter < ' ' || letter == '\x7f' {
        return push_control(line, letter as u8);
    }
    if letter == '\\' || letter == '"' {
        return push_behind_backslash(line, letter);
    }
    line.push(letter)
}

fn push_behind_backslash(line: &mut String, letter: char) -> Result<(), Memory>
    requires { letter < 128 }
    ensures { OnOk result (string_bytes line.new ≡ string_bytes line.old ++ 92 ∷ letter ∷ []) }
{
    line.push('\\')?;
    line.push(letter)
}

/// Appends a control byte as it stands inside quotes.
fn push_control(line: &mut String, byte: u8) -> Result<(), Memory>
    requires { (byte < 32) ⊎ (byte ≡ 127) }
    ensures { OnOk result (string_bytes line.new ≡ string_bytes line.old ++ quoted_byte byte) }
{
    match byte {
        b'\n' => line.push_str("\\n"),
        b'\r' => line.push_str("\\r"),
        b'\t' => line.push_str("\\t"),
        _ => push_hexadecimal(line, byte),
    }
}

/// Appends `\x` and the two hexadecimal digits of a byte.
fn push_hexadecimal(line: &mut String, byte: u8) -> Result<(), Memory>
    ensures { OnOk result (string_bytes line.new ≡ string_bytes line.old ++ 92 ∷ 120 ∷ hex_digit (byte / 16) ∷ hex_digit (byte % 16) ∷ []) }
{
    line.push_str("\\x")?;
    line.push(char::from(hex_digit_of(byte / 16)))?;
    line.push(char::from(hex_digit_of(byte % 16)))
}

/// The lower-case hexadecimal digit of a number below 16.
fn hex_digit_of(number: u8) -> u8
    requires { number < 16 }
    ensures digit { result ≡ hex_digit number }
    ensures ascii { result < 128 }
{
    if number < 10 {
        b'0' + number
    } else {
        b'a' - 10 + number
    }
}
