//! How often a merge is tried.
ghost use Rattle.std.specs.Prelude.{◌≡◌, ◌⊎◌, ◌<◌, ◌≤◌, MatchOption};
ghost use Rattle.batch_script.specs.Counts.{most_tries};

use std::marker::Model;

/// The most tries of a merge.
pub const MOST_TRIES: u32 = 100_000;

/// How often a merge is tried: from 1 on, and no more than `MOST_TRIES` times. Seen as the number.
#[derive(Drop)]
pub struct Tries {
    count: u32,
}

impl Model for Tries {
    ghost use Rattle.std.specs.Prelude.{ℕ, ◌≤◌};
    ghost use Rattle.batch_script.specs.Counts.{most_tries};

    ghost Value = { ℕ };

    ghost view = { λ tries. tries.count };

    ghost invariant = { λ tries. (1 ≤ tries.count) × (tries.count ≤ most_tries) };
}

impl Tries {
    /// So many tries. There are none where it is none, or too many.
    pub fn new(count: u32) -> Option<Tries>
        ensures { MatchOption result ((count ≡ 0) ⊎ (most_tries < count)) (λ tries. (1 ≤ count) × (count ≤ most_tries) × (tries ≡ count)) }
    {
        if count == 0 || count > MOST_TRIES {
            return None;
        }
        Some(Tries { count })
    }

    pub fn get(&self) -> u32
        ensures count { result ≡ self.now }
        ensures some { 1 ≤ self.now }
        ensures limit { self.now ≤ most_tries }
    {
        self.count
    }
}
