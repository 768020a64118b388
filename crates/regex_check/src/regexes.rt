//! The few lines over the crate `regex`.
ghost use Rattle.std.specs.Prelude.{◌≡◌, ◌≤◌, IfOk, OnErr};
ghost use Rattle.kdb_outside.specs.Faults.{HasRisen};
ghost use Rattle.regex_check.specs.Answers.{Answers, count_after};

use crate::last::{LastPattern, search_with};
use crate::patterns::{Patterns, Search};
use key_meta::Memory;
use std::alloc::Global;
use std::marker::Model;

/// The patterns of the crate `regex`. The count of refusals stands still at its type's end.
#[derive(Drop)]
pub struct RegexPatterns {
    refusals: u64,
}

impl Model for RegexPatterns {
    ghost use Rattle.std.specs.Prelude.{ℕ};

    ghost Value = { ℕ };

    ghost view = { λ patterns. patterns.refusals };
}

impl RegexPatterns {
    pub fn new() -> RegexPatterns
        ensures { result ≡ 0 }
    {
        RegexPatterns { refusals: 0 }
    }
}

impl Patterns for RegexPatterns {
    ghost refusals = { λ count. count };

    fn search(&mut self, alloc: Global, pattern: &str, value: &str) -> Result<Search, Memory>
        ensures counted { IfOk result (λ search. self.new ≡ count_after search self.old) }
        ensures err { OnErr result (self.new ≡ self.old) }
        ensures answer { IfOk result (Answers pattern.now value.now) }
        ensures cause { IfOk result (λ search. search ≡ Search.Refused → HasRisen self.old self.new) }
        ensures later { self.old ≤ self.new }
    {
        self.search_again(alloc, &mut LastPattern::none(), pattern, value)
    }

    fn search_again(
        &mut self,
        alloc: Global,
        last: &mut LastPattern,
        pattern: &str,
        value: &str,
    ) -> Result<Search, Memory>
        ensures counted { IfOk result (λ search. self.new ≡ count_after search self.old) }
        ensures err { OnErr result (self.new ≡ self.old) }
        ensures answer { IfOk result (Answers pattern.now value.now) }
        ensures cause { IfOk result (λ search. search ≡ Search.Refused → HasRisen self.old self.new) }
        ensures later { self.old ≤ self.new }
    {
        let search = search_with(alloc, last, pattern, value)?;
        if search == Search::Refused {
            self.refusals = self.refusals.saturating_add(1);
        }
        Ok(search)
    }
}
