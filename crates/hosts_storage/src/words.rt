//! The words of a line, and the comment behind them.
ghost use Rattle.std.specs.Prelude.{◌≡◌, ◌<◌, ◌∷◌, [], false, length, slice_index, MatchOption};
ghost use Rattle.std.specs.Option.{option_map};
ghost use Rattle.model_hosts.specs.Line.{cut_at_hash, is_blank as is_blank_byte, words};

/// What stands before the first `#` of a line, and what stands behind it, if there is one.
pub fn data_and_comment(line: &[u8]) -> (&[u8], Option<&[u8]>)
    ensures { (result.0.now, option_map (λ comment. comment.now) result.1) ≡ cut_at_hash line.now }
{
    for (at, byte) in line.iter().enumerate() {
        if *byte == b'#' {
            return (&line[..at], Some(&line[at + 1..]));
        }
    }
    (line, None)
}

/// The first word of some bytes, and what stands behind it; none where there are only blanks.
pub fn first_word(bytes: &[u8]) -> Option<(&[u8], &[u8])>
    ensures { MatchOption result
        (words bytes.now ≡ [])
        (λ cut. (words bytes.now ≡ cut.0.now ∷ words cut.1.now) × (length cut.1.now < length bytes.now)) }
{
    let mut rest = bytes;
    while let [first, more @ ..] = rest {
        if !is_blank(*first) {
            return Some(cut_word(rest));
        }
        rest = more;
    }
    None
}

/// The word with which bytes begin, and what stands behind it.
fn cut_word(bytes: &[u8]) -> (&[u8], &[u8])
    requires some { 0 < length bytes.now }
    requires filled { is_blank_byte (slice_index bytes.now 0) ≡ false }
    ensures cut { words bytes.now ≡ result.0.now ∷ words result.1.now }
    ensures shorter { length result.1.now < length bytes.now }
{
    for (at, byte) in bytes.iter().enumerate() {
        if is_blank(*byte) {
            return (&bytes[..at], &bytes[at..]);
        }
    }
    (bytes, &[])
}

/// Whether a byte is a blank or a tab.
fn is_blank(byte: u8) -> bool
    ensures { result ≡ is_blank_byte byte }
{
    byte == b' ' || byte == b'\t'
}
