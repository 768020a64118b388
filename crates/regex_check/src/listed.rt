//! Patterns that are refused at listed calls, for tests.
ghost use Rattle.std.specs.Prelude.{◌≡◌, ◌≤◌, IfOk, OnErr};
ghost use Rattle.kdb_outside.specs.Calls.{IsNextListed, next_count, no_calls};
ghost use Rattle.kdb_outside.specs.Faults.{HasRisen};
ghost use Rattle.regex_check.specs.Answers.{Answers, count_after};

use crate::last::LastPattern;
use crate::patterns::{Patterns, Search};
use crate::regexes::RegexPatterns;
use key_meta::Memory;
use std::alloc::Global;
use std::marker::Model;

/// Patterns of the crate `regex` of which the listed calls, counted from 1, are refused.
#[derive(Drop)]
pub struct ListedPatterns {
    patterns: RegexPatterns,
    refusing: Vec<u64>,
    calls: u64,
    refusals: u64,
}

impl Model for ListedPatterns {
    ghost use Rattle.kdb_outside.specs.Calls.{Calls};

    ghost Value = { Calls };

    ghost view = { λ p. record { failing = p.refusing.items; made = p.calls; faults = p.refusals } };
}

impl ListedPatterns {
    pub fn new(refusing: Vec<u64>) -> ListedPatterns
        ensures { result ≡ no_calls refusing.items }
    {
        ListedPatterns {
            patterns: RegexPatterns::new(),
            refusing,
            calls: 0,
            refusals: 0,
        }
    }

    fn refusal(&mut self) -> Search
        ensures is { result ≡ Search.Refused }
        ensures next { self.new ≡ record self.old { faults = next_count self.old.faults } }
        ensures cause { HasRisen self.old.faults self.new.faults }
        ensures later { self.old.faults ≤ self.new.faults }
    {
        self.refusals = self.refusals.saturating_add(1);
        Search::Refused
    }
}

impl Patterns for ListedPatterns {
    ghost refusals = { λ calls. calls.faults };

    fn search(&mut self, alloc: Global, pattern: &str, value: &str) -> Result<Search, Memory>
        ensures listed { IsNextListed self.old → IfOk result (λ search. search ≡ Search.Refused) }
        ensures made { self.new.made ≡ next_count self.old.made }
        ensures same { self.new.failing ≡ self.old.failing }
        ensures counted { IfOk result (λ search. self.new.faults ≡ count_after search self.old.faults) }
        ensures err { OnErr result (self.new.faults ≡ self.old.faults) }
        ensures answer { IfOk result (Answers pattern.now value.now) }
        ensures cause { IfOk result (λ search. search ≡ Search.Refused → HasRisen self.old.faults self.new.faults) }
        ensures later { self.old.faults ≤ self.new.faults }
    {
        self.search_again(alloc, &mut LastPattern::none(), pattern, value)
    }

    fn search_again(
        &mut self,
        alloc: Global,
        last: &mut LastPattern,
        pattern: &str,
        value: &str,
    ) -> Result<Search, Memory>
        ensures listed { IsNextListed self.old → IfOk result (λ search. search ≡ Search.Refused) }
        ensures made { self.new.made ≡ next_count self.old.made }
        ensures same { self.new.failing ≡ self.old.failing }
        ensures counted { IfOk result (λ search. self.new.faults ≡ count_after search self.old.faults) }
        ensures err { OnErr result (self.new.faults ≡ self.old.faults) }
        ensures answer { IfOk result (Answers pattern.now value.now) }
        ensures cause { IfOk result (λ search. search ≡ Search.Refused → HasRisen self.old.faults self.new.faults) }
        ensures later { self.old.faults ≤ self.new.faults }
    {
        self.calls = self.calls.saturating_add(1);
        if self.refusing.contains(&self.calls) {
            return Ok(self.refusal());
        }
        match self.patterns.search_again(alloc, last, pattern, value)? {
            Search::Refused => Ok(self.refusal()),
            search => Ok(search),
        }
    }
}
