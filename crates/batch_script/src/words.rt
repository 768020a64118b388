//! The words of a line.
ghost use Rattle.std.specs.Prelude.{◌≡◌, ◌<◌, ◌≤◌, ◌∷◌, [], ℕ, List, true, not, take, drop, length, IfOk, MatchOption};
ghost use Rattle.std.specs.List.{list_all};
ghost use Rattle.batch_script.specs.Words.{is_bare, is_blank, is_nothing, behind_blanks, closes, EndsWord, HasWords, IsFirstTaken, LacksWord};

use crate::letters::first_written;
use key_meta::{Memory, Text};
use std::alloc::Global;

/// What is left of a line behind the blanks and tabs at its front.
pub fn behind_blanks(line: &[u8]) -> &[u8]
    ensures { result.now ≡ behind_blanks line.now }
{
    let mut rest = line;
    while let [first, more @ ..] = rest {
        if !is_blank(*first) {
            break;
        }
        rest = more;
    }
    rest
}

/// Whether what stands behind the blanks of a line means nothing.
pub fn is_nothing(rest: &[u8]) -> bool
    ensures { result ≡ is_nothing rest.now }
{
    match rest {
        [] => true,
        [first, ..] => *first == b'#',
    }
}

/// The words of a line. A quoted word that isn't closed, or that goes on behind its last quote, leaves it without
/// words.
pub fn words_of(alloc: Global, line: &[u8]) -> Result<Option<Vec<Text>>, Memory>
    ensures { IfOk result (λ found. MatchOption found
        ((words : List (List ℕ)) → HasWords line.now words → ⊥)
        (λ words. HasWords line.now words.items)) }
{
    let mut words = Vec::new(alloc);
    let mut rest = behind_blanks(line);
    while !rest.is_empty() {
        let found = first_word(alloc, rest)?;
        let Some((word, taken)) = found else {
            return Ok(None);
        };
        words.push(word)?;
        let behind = behind_blanks(&rest[taken..]);
        rest = behind;
    }
    Ok(Some(words))
}

/// The first word of a line that begins with it, and how many bytes it takes.
fn first_word(alloc: Global, line: &[u8]) -> Result<Option<(Text, usize)>, Memory>
    requires some { 0 < length line.now }
    requires front { behind_blanks line.now ≡ line.now }
    ensures { IfOk result (λ found. MatchOption found (LacksWord line.now) (IsFirstTaken line.now)) }
{
    if line[0] == b'"' {
        quoted_word(alloc, line)
    } else {
        bare_word(alloc, line)
    }
}

/// The word up to the first blank or tab, which begins with no quote.
fn bare_word(alloc: Global, line: &[u8]) -> Result<Option<(Text, usize)>, Memory>
    requires bare { is_bare (take 1 line.now) ≡ true }
    requires front { behind_blanks line.now ≡ line.now }
    ensures { IfOk result (λ found. MatchOption found (LacksWord line.now) (IsFirstTaken line.now)) }
{
    let end = bare_end(line);
    let Ok(word) = str::from_utf8(&line[..end]) else {
        return Ok(None);
    };
    Ok(Some((Text::new(alloc, word)?, end)))
}

/// The place of the first blank or tab, or of the end.
fn bare_end(line: &[u8]) -> usize
    ensures within { result ≤ length line.now }
    ensures bare { list_all (λ b. not (is_blank b)) (take result line.now) ≡ true }
    ensures apart { EndsWord (drop result line.now) }
{
    for (at, byte) in line.iter().enumerate() {
        if is_blank(*byte) {
            return at;
        }
    }
    line.len()
}

/// The word in the quotes that a line begins with.
fn quoted_word(alloc: Global, line: &[u8]) -> Result<Option<(Text, usize)>, Memory>
    requires quote { take 1 line.now ≡ 34 ∷ [] }
    ensures { IfOk result (λ found. MatchOption found (LacksWord line.now) (IsFirstTaken line.now)) }
{
    let mut bytes = Vec::new(alloc);
    let mut rest = &line[1..];
    while let Some((byte, behind)) = first_written(rest) {
        bytes.push(byte)?;
        rest = behind;
    }
    if !closes(rest) {
        return Ok(None);
    }
    let Ok(word) = str::from_utf8(&bytes) else {
        return Ok(None);
    };
    Ok(Some((Text::new(alloc, word)?, line.len() - rest.len() + 1)))
}

/// Whether a quote is at the front that ends a word.
fn closes(bytes: &[u8]) -> bool
    ensures { result ≡ closes bytes.now }
{
    match bytes {
        [b'"'] => true,
        [b'"', next, ..] => is_blank(*next),
        _ => false,
    }
}

/// Whether a byte is a blank or a tab.
fn is_blank(byte: u8) -> bool
    ensures { result ≡ is_blank byte }
{
    byte == b' ' || byte == b'\t'
}
