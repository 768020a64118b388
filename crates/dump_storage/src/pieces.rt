//! The pieces of a dump: each function tells whether bytes begin with one, and gives what stands behind it.
ghost use Rattle.std.specs.Prelude.{◌≡◌, ◌≢◌, ◌≤◌, ◌<◌, ◌++◌, List, ℕ, MatchOption, IsTrue, ◌↔◌, false, drop, length};
ghost use Rattle.std.specs.Char.{is_ascii_digit};
ghost use Rattle.std.specs.List.{prefix_len, take_while};
ghost use Rattle.std.specs.Str.Parse.{AllDigits, digits_value};
ghost use Rattle.dump_storage.specs.Pieces.{BeginsWithSize, BeginsWithNoSize, BeginsWithText, BeginsWithNoText, IsSizeLike};

/// What stands behind this front.
pub fn behind<'a>(bytes: &'a [u8], front: &[u8]) -> Option<&'a [u8]>
    ensures { MatchOption result
        ((rest : List ℕ) → bytes.now ≢ front.now ++ rest)
        (λ rest. bytes.now ≡ front.now ++ rest.now) }
{
    bytes.strip_prefix(front)
}

/// A size, which the byte `last` ends: 0, or up to 7 digits that don't begin with 0.
pub fn size_before(bytes: &[u8], last: u8) -> Option<(usize, &[u8])>
    requires { is_ascii_digit last ≡ false }
    ensures { MatchOption result
        (BeginsWithNoSize bytes.now last)
        (λ found. BeginsWithSize bytes.now last found.0 found.1.now) }
{
    let (digits, rest) = split_digits(bytes);
    if !is_size(digits) {
        return None;
    }
    let rest = behind(rest, &[last])?;
    Some((number(digits), rest))
}

/// The digits at the front, and what stands behind them.
fn split_digits(bytes: &[u8]) -> (&[u8], &[u8])
    ensures digits { result.0.now ≡ take_while is_ascii_digit bytes.now }
    ensures rest { result.1.now ≡ drop (prefix_len is_ascii_digit bytes.now) bytes.now }
{
    bytes.split_at(digit_count(bytes))
}

/// How many digits stand at the front.
fn digit_count(bytes: &[u8]) -> usize
    ensures { result ≡ prefix_len is_ascii_digit bytes.now }
{
    bytes.iter().take_while(|b| b.is_ascii_digit()).count()
}

/// Digits are what is written for a number that is small enough.
fn is_size(digits: &[u8]) -> bool
    ensures { IsTrue result ↔ IsSizeLike digits.now }
{
    match digits {
        [] => false,
        [_] => true,
        [first, ..] => *first != b'0' && digits.len() <= 7,
    }
}

/// The number that a few digits write.
fn number(digits: &[u8]) -> usize
    requires digits { AllDigits 10 digits.now }
    requires few { length digits.now ≤ 7 }
    ensures { result ≡ digits_value 10 digits.now }
{
    let mut number = 0;
    for digit in digits {
        number = number * 10 + usize::from(digit - b'0');
    }
    number
}

/// A text of this size, which a line feed ends.
pub fn text_before(bytes: &[u8], size: usize) -> Option<(&[u8], &[u8])>
    ensures { MatchOption result
        (BeginsWithNoText bytes.now size)
        (λ found. BeginsWithText bytes.now size found.0.now found.1.now) }
{
    if bytes.len() < size {
        return None;
    }
    let (text, rest) = bytes.split_at(size);
    Some((text, behind(rest, b"\n")?))
}
