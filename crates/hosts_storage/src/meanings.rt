//! What a line says.
ghost use Rattle.std.specs.Prelude.{◌≡◌, ◌==◌};
ghost use Rattle.std.specs.List.{list_any};
ghost use Rattle.std.specs.Option.{option_map};
ghost use Rattle.model_hosts.specs.Line.{words, meaning, meaning_of as meaning_of_words};
ghost use Rattle.hosts_storage.specs.MeaningView.{meaning_view};

use crate::words::{data_and_comment, first_word};
use file_lines::without_return;

/// A line is skipped, is a comment that waits for an entry, is an entry, or can't be read.
#[derive(Clone, Copy)]
pub enum Meaning<'a> {
    Skipped,
    Comment(&'a [u8]),
    Gives(HostLine<'a>),
    Unreadable,
}

/// The words of an entry, of which those of the aliases still stand together, and its own comment.
#[derive(Clone, Copy)]
pub struct HostLine<'a> {
    pub address: &'a [u8],
    pub host: &'a [u8],
    pub aliases: &'a [u8],
    pub own: Option<&'a [u8]>,
}

/// What a line says.
pub fn meaning_of(line: &[u8]) -> Meaning<'_>
    ensures { meaning_view result ≡ meaning line.now }
{
    let bytes = without_return(line);
    if has_return(bytes) {
        return Meaning::Unreadable;
    }
    let (words, comment) = data_and_comment(bytes);
    meaning_of_parts(words, comment)
}

/// What words and a comment say.
fn meaning_of_parts<'a>(front: &'a [u8], comment: Option<&'a [u8]>) -> Meaning<'a>
    ensures { meaning_view result
        ≡ meaning_of_words (words front.now) (option_map (λ comment. comment.now) comment.entry) }
{
    let Some((address, behind)) = first_word(front) else {
        return match comment {
            Some(comment) => Meaning::Comment(comment),
            None => Meaning::Skipped,
        };
    };
    let Some((host, aliases)) = first_word(behind) else {
        return Meaning::Unreadable;
    };
    Meaning::Gives(HostLine {
        address,
        host,
        aliases,
        own: comment,
    })
}

/// Whether a carriage return stands among bytes.
fn has_return(bytes: &[u8]) -> bool
    ensures { result ≡ list_any (λ b. b == 13) bytes.now }
{
    bytes.iter().any(|byte| *byte == b'\r')
}
