//! The lines of what a watch tells.
ghost use Rattle.std.specs.Prelude.{◌≡◌, ◌++◌, ◌∷◌, [], OnOk, map as over, string_bytes};
ghost use Rattle.kdb_print.specs.Replies.{line_of_changed, lines_of_news, sign_of};
ghost use Rattle.model_lines.specs.Lines.{ended};

use crate::lines::push_line;
use kdb_text::shown;
use key_meta::Memory;
use std::alloc::Global;
use watch_feed::{Changed, News};

/// Adds the lines of some news.
pub fn push_news(alloc: Global, text: &mut String, news: &News) -> Result<(), Memory>
    ensures { OnOk result (string_bytes text.new ≡ string_bytes text.old ++ ended (lines_of_news news.now)) }
{
    let line = format!(in alloc; "news {} missed {}", news.front, news.missed)?;
    push_line(text, line.as_str())?;
    push_told(alloc, text, news.changes.as_slice())
}

/// Adds a line for each of some changes that are told.
fn push_told(alloc: Global, text: &mut String, told: &[Changed]) -> Result<(), Memory>
    ensures { OnOk result (string_bytes text.new ≡ string_bytes text.old ++ ended (over line_of_changed told.now)) }
{
    for item in told {
        push_changed(alloc, text, item)?;
    }
    Ok(())
}

/// Adds the line of a change that is told.
fn push_changed(alloc: Global, text: &mut String, item: &Changed) -> Result<(), Memory>
    ensures { OnOk result (string_bytes text.new ≡ string_bytes text.old ++ ended (line_of_changed item.now ∷ [])) }
{
    let name = shown(alloc, &item.name)?;
    let sign = sign_of(item.removed);
    let line = format!(in alloc; "~ {} {sign} {name}", item.number)?;
    push_line(text, line.as_str())
}

/// Whether a key went, or has a new entry.
fn sign_of(removed: bool) -> &'static str
    ensures { result.now ≡ sign_of removed }
{
    if removed { "-" } else { "+" }
}
