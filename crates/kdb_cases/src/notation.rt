//! How bytes stand in a line: as they are, and after a `|` by a letter.

use key_meta::Memory;
use std::alloc::Global;

/// The longest bytes that are printed. Of longer ones their number is.
const LONGEST: usize = 400;

/// The bytes that a text stands for. `|(FROM..TO:TEXT|)` is the text once for each number, up or down.
pub fn bytes_of(alloc: Global, text: &str) -> Result<Vec<u8>, Memory> {
    let mut bytes = Vec::new(alloc);
    let mut pieces = text.split("|(");
    if let Some(first) = pieces.next() {
        push_plain(alloc, &mut bytes, first, 0)?;
    }
    for piece in pieces {
        let (repeated, rest) = piece.split_once("|)").unwrap_or((piece, ""));
        push_repeated(alloc, &mut bytes, repeated)?;
        push_plain(alloc, &mut bytes, rest, 0)?;
    }
    Ok(bytes)
}

/// The text that a text stands for, if its bytes are one.
pub fn text_of(alloc: Global, text: &str) -> Result<Option<String>, Memory> {
    let bytes = bytes_of(alloc, text)?;
    Ok(String::from_utf8(bytes).ok())
}

/// Two texts with a blank between them.
pub fn two_of(alloc: Global, text: &str) -> Result<Option<(String, String)>, Memory> {
    let Some((first, second)) = text.split_once(' ') else {
        return Ok(None);
    };
    let first = text_of(alloc, first)?;
    let second = text_of(alloc, second)?;
    match (first, second) {
        (Some(first), Some(second)) => Ok(Some((first, second))),
        _ => Ok(None),
    }
}

fn push_repeated(alloc: Global, bytes: &mut Vec<u8>, text: &str) -> Result<(), Memory> {
    let Some((range, repeated)) = text.split_once(':') else {
        return Ok(());
    };
    let (from, to) = range.split_once("..").unwrap_or((range, range));
    let from: u64 = from.parse().unwrap_or(0);
    let to: u64 = to.parse().unwrap_or(0);
    for step in 0..from.abs_diff(to) {
        push_plain(alloc, bytes, repeated, number_at(from, to, step))?;
    }
    Ok(())
}

/// The number that is so many steps from one on the way to another.
fn number_at(from: u64, to: u64, step: u64) -> u64 {
    if from < to {
        from.saturating_add(step)
    } else {
        from.saturating_sub(step)
    }
}

fn push_plain(alloc: Global, bytes: &mut Vec<u8>, text: &str, number: u64) -> Result<(), Memory> {
    let mut pieces = text.split('|');
    if let Some(first) = pieces.next() {
        bytes.extend_from_slice(first.as_bytes())?;
    }
    for piece in pieces {
        push_lettered(alloc, bytes, piece, number)?;
    }
    Ok(())
}

/// Puts what a letter stands for, and what comes behind it.
fn push_lettered(
    alloc: Global,
    bytes: &mut Vec<u8>,
    piece: &str,
    number: u64,
) -> Result<(), Memory> {
    let (letter, rest) = piece.split_at_checked(1).unwrap_or(("", piece));
    match letter {
        "n" => bytes.push(b'\n')?,
        "r" => bytes.push(b'\r')?,
        "t" => bytes.push(b'\t')?,
        "s" => bytes.push(b' ')?,
        "0" => bytes.push(b'\0')?,
        "p" => bytes.push(b'|')?,
        "x" => return push_digits(bytes, rest),
        "#" => bytes.extend_from_slice(format!(in alloc; "{number}")?.as_bytes())?,
        _ => {}
    }
    bytes.extend_from_slice(rest.as_bytes())
}

/// Puts the byte of two digits, and what comes behind them.
fn push_digits(bytes: &mut Vec<u8>, text: &str) -> Result<(), Memory> {
    match text.as_bytes() {
        [high, low, rest @ ..] => {
            bytes.push(digit(*high) << 4 | digit(*low))?;
            bytes.extend_from_slice(rest)
        }
        short => bytes.extend_from_slice(short),
    }
}

/// What a digit of sixteen counts, and another letter nothing.
fn digit(letter: u8) -> u8 {
    match letter {
        b'0'..=b'9' => letter.wrapping_sub(b'0'),
        b'a'..=b'f' => letter.wrapping_sub(b'a').wrapping_add(10),
        _ => 0,
    }
}

/// How bytes are printed: as a line has them, with blanks as they are.
pub fn shown(alloc: Global, bytes: &[u8]) -> Result<String, Memory> {
    let count = bytes.len();
    if count > LONGEST {
        return format!(in alloc; "{count} bytes");
    }
    if bytes.is_empty() {
        return String::from_str(alloc, "|e");
    }
    let mut text = String::new(alloc);
    for byte in bytes {
        push_shown(alloc, &mut text, *byte)?;
    }
    Ok(text)
}

/// Puts a line: a word, and bytes as they are printed.
pub fn push_line(
    alloc: Global,
    answer: &mut String,
    word: &str,
    bytes: &[u8],
) -> Result<(), Memory> {
    let text = shown(alloc, bytes)?;
    answer.push_str(&format!(in alloc; "  {word} {text}\n")?)
}

fn push_shown(alloc: Global, text: &mut String, byte: u8) -> Result<(), Memory> {
    match byte {
        b'\n' => text.push_str("|n"),
        b'\r' => text.push_str("|r"),
        b'\t' => text.push_str("|t"),
        b'\0' => text.push_str("|0"),
        b'|' => text.push_str("|p"),
        b' '..=b'~' => text.push(char::from(byte)),
        _ => text.push_str(&format!(in alloc; "|x{byte:02x}")?),
    }
}
