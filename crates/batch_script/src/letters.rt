//! Bytes in quotes, one after the other.
ghost use Rattle.std.specs.Prelude.{◌≡◌, ◌<◌, IfSome};
ghost use Rattle.std.specs.Option.{option_map};
ghost use Rattle.batch_script.specs.Letters.{byte_of_digits, escaped_at, hex_value, hexadecimal_at, is_plain, short_escape, written_at};

/// The first byte that bytes in quotes write, and what stands behind it. There is none at a quote, at a control byte
/// and at a backslash that escapes nothing.
pub fn first_written(bytes: &[u8]) -> Option<(u8, &[u8])>
    ensures { option_map (λ found. (found.0, found.1.now)) result ≡ written_at bytes.now }
{
    let [first, behind @ ..] = bytes else {
        return None;
    };
    if *first == b'\\' {
        return first_escaped(behind);
    }
    if !is_plain(*first) {
        return None;
    }
    Some((*first, behind))
}

/// The byte that an escape stands for, behind its backslash.
fn first_escaped(bytes: &[u8]) -> Option<(u8, &[u8])>
    ensures { option_map (λ found. (found.0, found.1.now)) result ≡ escaped_at bytes.now }
{
    let [first, behind @ ..] = bytes else {
        return None;
    };
    if *first == b'x' {
        return first_hexadecimal(behind);
    }
    match short_escape(*first) {
        Some(byte) => Some((byte, behind)),
        None => None,
    }
}

/// The byte of two hexadecimal digits.
fn first_hexadecimal(bytes: &[u8]) -> Option<(u8, &[u8])>
    ensures { option_map (λ found. (found.0, found.1.now)) result ≡ hexadecimal_at bytes.now }
{
    let [first, second, behind @ ..] = bytes else {
        return None;
    };
    match byte_of_digits(*first, *second) {
        Some(byte) => Some((byte, behind)),
        None => None,
    }
}

/// The byte of a letter behind a backslash.
fn short_escape(letter: u8) -> Option<u8>
    ensures { result ≡ short_escape letter }
{
    match letter {
        b'\\' => Some(b'\\'),
        b'"' => Some(b'"'),
        b'n' => Some(b'\n'),
        b'r' => Some(b'\r'),
        b't' => Some(b'\t'),
        _ => None,
    }
}

/// The ASCII byte of two digits.
fn byte_of_digits(first: u8, second: u8) -> Option<u8>
    ensures { result ≡ byte_of_digits first second }
{
    let Some(high) = hex_value(first) else {
        return None;
    };
    let Some(low) = hex_value(second) else {
        return None;
    };
    let byte = 16 * high + low;
    if byte < 128 { Some(byte) } else { None }
}

/// The value of a hexadecimal digit.
fn hex_value(digit: u8) -> Option<u8>
    ensures value { result ≡ hex_value digit }
    ensures limit { IfSome result (λ value. value < 16) }
{
    if b'0' <= digit && digit <= b'9' {
        return Some(digit - b'0');
    }
    if b'a' <= digit && digit <= b'f' {
        return Some(digit - b'a' + 10);
    }
    if b'A' <= digit && digit <= b'F' {
        return Some(digit - b'A' + 10);
    }
    None
}

/// Whether a byte other than a backslash stands as it is in quotes.
fn is_plain(byte: u8) -> bool
    ensures { result ≡ is_plain byte }
{
    byte >= 32 && byte != 127 && byte != b'"'
}
