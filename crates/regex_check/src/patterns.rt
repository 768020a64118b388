//! What matches patterns, with its written meaning.
ghost use Rattle.std.specs.Prelude.{◌≡◌, ◌≤◌, ℕ, IfOk, OnErr};
ghost use Rattle.kdb_outside.specs.Faults.{HasRisen};
ghost use Rattle.regex_check.specs.Answers.{Answers};

use crate::last::LastPattern;
use key_meta::Memory;
use std::alloc::Global;

/// What a search for a pattern gives.
#[derive(Clone, Copy, PartialEq, Eq)]
pub enum Search {
    /// It matches somewhere in the value.
    Found,
    /// It is a pattern, and matches nowhere in the value.
    Missing,
    /// It was not taken as a pattern.
    Refused,
}

/// Searches values for patterns, and counts what it refuses. A text outside the grammar is always refused.
pub trait Patterns {
    ghost refusals: { Self → ℕ };

    /// Searches for a pattern anywhere in a value. It is refused only where the count of refusals rose in this call.
    /// Want of memory is no refusal: it leaves the count as it was.
    fn search(&mut self, alloc: Global, pattern: &str, value: &str) -> Result<Search, Memory>
        ensures answer { IfOk result (Answers pattern.now value.now) }
        ensures cause { IfOk result (λ search. search ≡ Search.Refused → HasRisen (refusals self.old) (refusals self.new)) }
        ensures later { refusals self.old ≤ refusals self.new }
        ensures err { OnErr result (refusals self.new ≡ refusals self.old) };

    /// Searches as `search` does, where one pattern may stand for many values: the last is compiled once.
    fn search_again(
        &mut self,
        alloc: Global,
        last: &mut LastPattern,
        pattern: &str,
        value: &str,
    ) -> Result<Search, Memory>
        ensures answer { IfOk result (Answers pattern.now value.now) }
        ensures cause { IfOk result (λ search. search ≡ Search.Refused → HasRisen (refusals self.old) (refusals self.new)) }
        ensures later { refusals self.old ≤ refusals self.new }
        ensures err { OnErr result (refusals self.new ≡ refusals self.old) };
}
