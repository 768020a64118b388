//! Some keys in name order, narrowed down to those that a path may match. Keys whose first parts are the same stand
//! together, so at each depth those with one part there are found by halves: a part of a pattern is the path's own,
//! `_`, or `#`.
ghost use Rattle.std.specs.Prelude.{◌≡◌, ◌+◌, ◌++◌, codes, slice_get, Some, OnOk};
ghost use Rattle.std.specs.Ordering.{is_le, is_lt};
ghost use Rattle.model_names.specs.Order.{part_cmp};
ghost use Rattle.plugin_chain.specs.Globs.{AreAscending, HaveWords, IsCut, IsNarrowed, IsRising, SplitsAt, begins_as_item, beside, lent, patterns_in};

use crate::globs::Glob;
use key_meta::Memory;
use key_name::KeyName;
use std::cmp::Ordering;

/// So many keys for each part before a depth are compared as they are: it costs less than to tell them apart by the
/// part there.
const FEW: usize = 16;

/// Adds keys of some that a path may match, among them all that are its patterns. Before a depth the keys have the same
/// parts.
pub fn gather<'s, 'a>(
    found: &mut Vec<&'s Glob<'a>>,
    globs: &'s [Glob<'a>],
    path: &KeyName,
    depth: usize,
) -> Result<(), Memory>
    requires { IsRising depth globs.now }
    ensures ok { OnOk result (patterns_in path.now.parts (lent found.new.items) ≡ patterns_in path.now.parts (lent found.old.items) ++ patterns_in path.now.parts globs.now) }
{
    if globs.len() / FEW <= depth {
        add_all(found, globs)?;
        return Ok(());
    }
    let Some(part) = path.part(depth) else {
        // the others have more parts
        add_all(found, &globs[..1])?;
        return Ok(());
    };
    let narrowed = narrow(globs, depth, part);
    gather(found, narrowed.first, path, depth + 1)?;
    gather(found, narrowed.second, path, depth + 1)?;
    gather(found, narrowed.third, path, depth + 1)
}

/// Adds keys as they are.
fn add_all<'s, 'a>(found: &mut Vec<&'s Glob<'a>>, globs: &'s [Glob<'a>]) -> Result<(), Memory>
    ensures ok { OnOk result (lent found.new.items ≡ lent found.old.items ++ globs.now) }
{
    for glob in globs {
        found.push(glob)?;
    }
    Ok(())
}

/// Keys with the same part at a depth, for each of three parts.
#[derive(Clone, Copy)]
struct Narrowed<'s, 'a> {
    first: &'s [Glob<'a>],
    second: &'s [Glob<'a>],
    third: &'s [Glob<'a>],
}

/// The keys whose part at a depth may stand for a path's part.
fn narrow<'s, 'a>(globs: &'s [Glob<'a>], depth: usize, part: &str) -> Narrowed<'s, 'a>
    requires { IsRising depth globs.now }
    ensures { IsNarrowed depth part.now globs.now result.first.now result.second.now result.third.now }
{
    if begins_as_item(part) {
        return with_words(globs, depth, "#", part, "_");
    }
    if is_at_most(part, "_") {
        return with_words(globs, depth, part, "_", "_");
    }
    with_words(globs, depth, "_", part, part)
}

/// Whether a part begins as an item of an array does.
fn begins_as_item(part: &str) -> bool
    ensures { result ≡ begins_as_item part.now }
{
    match part.as_bytes().first() {
        Some(b) => *b == b'#',
        None => false,
    }
}

fn is_at_most(part: &str, word: &str) -> bool
    ensures { result ≡ is_le (part_cmp part.now word.now) }
{
    part.cmp(word).is_le()
}

/// The keys with each of three words at a depth. Of two that are the same, the first has the keys.
fn with_words<'s, 'a>(
    globs: &'s [Glob<'a>],
    depth: usize,
    one: &str,
    two: &str,
    three: &str,
) -> Narrowed<'s, 'a>
    requires rising { IsRising depth globs.now }
    requires words { AreAscending one.now two.now three.now }
    ensures { HaveWords depth one.now two.now three.now globs.now result.first.now result.second.now result.third.now }
{
    let (first, behind) = cut_out(globs, depth, one);
    let (second, rest) = cut_out(behind, depth, two);
    let (third, _) = cut_out(rest, depth, three);
    Narrowed {
        first,
        second,
        third,
    }
}

/// The keys with a word at a depth, and those behind them.
fn cut_out<'s, 'a>(
    globs: &'s [Glob<'a>],
    depth: usize,
    word: &str,
) -> (&'s [Glob<'a>], &'s [Glob<'a>])
    requires { IsRising depth globs.now }
    ensures { IsCut depth word.now globs.now result.0.now result.1.now }
{
    let (_, rest) = globs.split_at(count_below(globs, depth, word));
    rest.split_at(count_up_to(rest, depth, word))
}

/// How many keys have a part at a depth that is less than a word, or no part there.
fn count_below<'a>(globs: &[Glob<'a>], depth: usize, word: &str) -> usize
    requires { IsRising depth globs.now }
    ensures { SplitsAt (λ glob. is_lt (beside depth word.now glob)) globs.now result }
{
    if globs.is_empty() {
        return 0;
    }
    if !is_below(&globs[0], depth, word) {
        return 0;
    }
    globs.partition_point(
        |glob: &Glob| -> bool
            ensures { result ≡ is_lt (beside depth word.entry.now glob.now) }
        { is_below(glob, depth, word) },
    )
}

/// How many keys have a part at a depth that is a word or less, or no part there. Where keys have the same parts, it is
/// most often none or all.
fn count_up_to<'a>(globs: &[Glob<'a>], depth: usize, word: &str) -> usize
    requires { IsRising depth globs.now }
    ensures { SplitsAt (λ glob. is_le (beside depth word.now glob)) globs.now result }
{
    if globs.is_empty() {
        return 0;
    }
    if !is_up_to(&globs[0], depth, word) {
        return 0;
    }
    if is_up_to(&globs[globs.len() - 1], depth, word) {
        return globs.len();
    }
    globs.partition_point(
        |glob: &Glob| -> bool
            ensures { result ≡ is_le (beside depth word.entry.now glob.now) }
        { is_up_to(glob, depth, word) },
    )
}

fn is_below(glob: &Glob, depth: usize, word: &str) -> bool
    ensures { result ≡ is_lt (beside depth word.now glob.now) }
{
    beside(glob, depth, word).is_lt()
}

fn is_up_to(glob: &Glob, depth: usize, word: &str) -> bool
    ensures { result ≡ is_le (beside depth word.now glob.now) }
{
    beside(glob, depth, word).is_le()
}

/// How a key's part at a depth compares with a word. Where it has none, it is less.
fn beside(glob: &Glob, depth: usize, word: &str) -> Ordering
    ensures { result ≡ beside depth word.now glob.now }
{
    match glob.name.part(depth) {
        Some(part) => part.cmp(word),
        None => Ordering::Less,
    }
}
