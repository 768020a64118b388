//! The check of a value under its metadata.
ghost use Rattle.std.specs.Prelude.{◌≡◌, ◌≤◌, IfOk, MatchOption, OnErr};
ghost use Rattle.kdb_outside.specs.Faults.{HasRisen};
ghost use Rattle.model_rules.specs.Rules.{BreaksPattern, KeepsPattern};
ghost use Rattle.regex_check.specs.Answers.{HandsNothingOn, Refutes};
ghost use Rattle.regex_check.specs.Grammar.{Matches, Misses};

use crate::last::LastPattern;
use crate::patterns::{Patterns, Search};
use key_meta::{Memory, Meta, Text};
use model_rules::Broken;
use std::alloc::Global;

/// The most bytes of a pattern.
const LONGEST_PATTERN: usize = 1024;

/// The breach of rule 6 or 7, if there is one: `check/validation` is too long or is refused as a pattern, or it matches
/// nowhere in the value. A pattern that is too long is not handed to the matcher. Want of memory leaves the count of
/// refusals.
pub fn check_pattern<P: Patterns>(
    alloc: Global,
    patterns: &mut P,
    value: &str,
    meta: &Meta,
) -> Result<Option<Broken>, Memory>
    ensures answer { IfOk result (λ answer. MatchOption answer
        (KeepsPattern Matches value.now meta.now)
        (BreaksPattern (λ _. HasRisen (P.refusals patterns.old) (P.refusals patterns.new)) Misses value.now meta.now)) }
    ensures later { P.refusals patterns.old ≤ P.refusals patterns.new }
    ensures err { OnErr result (P.refusals patterns.new ≡ P.refusals patterns.old) }
    ensures alone { HandsNothingOn meta.now → patterns.new ≡ patterns.old }
{
    check_pattern_again(alloc, patterns, &mut LastPattern::none(), value, meta)
}

/// The breach that `check_pattern` tells, where one pattern may stand for many values: the last is compiled once.
pub fn check_pattern_again<P: Patterns>(
    alloc: Global,
    patterns: &mut P,
    last: &mut LastPattern,
    value: &str,
    meta: &Meta,
) -> Result<Option<Broken>, Memory>
    ensures answer { IfOk result (λ answer. MatchOption answer
        (KeepsPattern Matches value.now meta.now)
        (BreaksPattern (λ _. HasRisen (P.refusals patterns.old) (P.refusals patterns.new)) Misses value.now meta.now)) }
    ensures later { P.refusals patterns.old ≤ P.refusals patterns.new }
    ensures err { OnErr result (P.refusals patterns.new ≡ P.refusals patterns.old) }
    ensures alone { HandsNothingOn meta.now → patterns.new ≡ patterns.old }
{
    let Some(pattern) = meta.get("check/validation") else {
        return Ok(None);
    };
    if pattern.len() > LONGEST_PATTERN {
        let given = Text::new(alloc, pattern)?;
        return Ok(Some(Broken { rule: 6, given }));
    }
    breach_of(alloc, patterns, last, pattern, value)
}

/// What the search for a pattern in a value refutes.
fn breach_of<P: Patterns>(
    alloc: Global,
    patterns: &mut P,
    last: &mut LastPattern,
    pattern: &str,
    value: &str,
) -> Result<Option<Broken>, Memory>
    ensures answer { IfOk result (λ answer. MatchOption answer
        (Matches pattern.now value.now)
        (Refutes (HasRisen (P.refusals patterns.old) (P.refusals patterns.new)) pattern.now value.now)) }
    ensures later { P.refusals patterns.old ≤ P.refusals patterns.new }
    ensures err { OnErr result (P.refusals patterns.new ≡ P.refusals patterns.old) }
{
    // Room for either breach is taken before the search: so want of memory hides no refused pattern, and counts none.
    let refused = Text::new(alloc, pattern)?;
    let missed = Text::new(alloc, value)?;
    match patterns.search_again(alloc, last, pattern, value)? {
        Search::Found => Ok(None),
        Search::Missing => Ok(Some(Broken {
            rule: 7,
            given: missed,
        })),
        Search::Refused => Ok(Some(Broken {
            rule: 6,
            given: refused,
        })),
    }
}
