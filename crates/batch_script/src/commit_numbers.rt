//! The number of a commit that a script says.
ghost use Rattle.std.specs.Prelude.{◌≡◌, ◌⊎◌, ◌<◌, ◌≤◌, MatchOption};
ghost use Rattle.batch_script.specs.Counts.{largest_commit_number};

use std::marker::Model;

/// The largest number of a commit that a script can say.
pub const LARGEST_COMMIT_NUMBER: u32 = 1_000_000_000;

/// The number of a commit: from 1 on, and no more than `LARGEST_COMMIT_NUMBER`. Seen as the number.
#[derive(Drop)]
pub struct CommitNumber {
    number: u32,
}

impl Model for CommitNumber {
    ghost use Rattle.std.specs.Prelude.{ℕ, ◌≤◌};
    ghost use Rattle.batch_script.specs.Counts.{largest_commit_number};

    ghost Value = { ℕ };

    ghost view = { λ commit. commit.number };

    ghost invariant = { λ commit. (1 ≤ commit.number) × (commit.number ≤ largest_commit_number) };
}

impl CommitNumber {
    /// The number of a commit. There is none where it is 0, or too large.
    pub fn new(number: u32) -> Option<CommitNumber>
        ensures { MatchOption result ((number ≡ 0) ⊎ (largest_commit_number < number)) (λ commit. (1 ≤ number) × (number ≤ largest_commit_number) × (commit ≡ number)) }
    {
        if number == 0 || number > LARGEST_COMMIT_NUMBER {
            return None;
        }
        Some(CommitNumber { number })
    }

    pub fn get(&self) -> u64
        ensures number { result ≡ self.now }
        ensures some { 1 ≤ self.now }
        ensures limit { self.now ≤ largest_commit_number }
    {
        self.number as u64
    }
}
