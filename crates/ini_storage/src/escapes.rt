//! What single signs stand for, and how single bytes are written.
ghost use Rattle.std.specs.Prelude.{◌≡◌};
ghost use Rattle.model_ini.specs.Signs.{byte_of, is_blank, is_equals};

use model_ini::Sign;

/// The byte that a sign stands for.
pub fn byte(sign: Sign) -> Option<u8>
    ensures { result ≡ byte_of sign }
{
    match sign {
        Sign::Plain(b'\\') => None,
        Sign::Plain(byte) => Some(byte),
        Sign::Covered(b'\\') => Some(b'\\'),
        Sign::Covered(b'n') => Some(b'\n'),
        Sign::Covered(b'r') => Some(b'\r'),
        Sign::Covered(b't') => Some(b'\t'),
        Sign::Covered(b's') => Some(b' '),
        Sign::Covered(byte) => match byte {
            b'=' | b'#' | b';' | b'[' => Some(byte),
            _ => None,
        },
    }
}

/// Whether a sign is a blank or a tab that stands as it is.
pub fn stands_blank(sign: Sign) -> bool
    ensures { result ≡ is_blank sign }
{
    match sign {
        Sign::Plain(byte) => byte == b' ' || byte == b'\t',
        Sign::Covered(_) => false,
    }
}

/// Whether a sign is an equals sign that stands as it is.
pub fn stands_equals(sign: Sign) -> bool
    ensures { result ≡ is_equals sign }
{
    match sign {
        Sign::Plain(byte) => byte == b'=',
        Sign::Covered(_) => false,
    }
}
