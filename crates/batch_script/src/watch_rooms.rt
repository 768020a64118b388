//! How many changes a watch has room for.
ghost use Rattle.std.specs.Prelude.{◌≡◌, ◌⊎◌, ◌<◌, ◌≤◌, MatchOption};
ghost use Rattle.batch_script.specs.Counts.{largest_watch_room};

use std::marker::Model;

/// The most changes that a watch has room for.
pub const LARGEST_WATCH_ROOM: u32 = 4_096;

/// How many changes a watch has room for: from 1 on, and no more than `LARGEST_WATCH_ROOM`. Seen as the number.
#[derive(Drop)]
pub struct WatchRoom {
    count: u32,
}

impl Model for WatchRoom {
    ghost use Rattle.std.specs.Prelude.{ℕ, ◌≤◌};
    ghost use Rattle.batch_script.specs.Counts.{largest_watch_room};

    ghost Value = { ℕ };

    ghost view = { λ room. room.count };

    ghost invariant = { λ room. (1 ≤ room.count) × (room.count ≤ largest_watch_room) };
}

impl WatchRoom {
    /// Room for so many changes. There is none where it is none, or too many.
    pub fn new(count: u32) -> Option<WatchRoom>
        ensures { MatchOption result ((count ≡ 0) ⊎ (largest_watch_room < count)) (λ room. (1 ≤ count) × (count ≤ largest_watch_room) × (room ≡ count)) }
    {
        if count == 0 || count > LARGEST_WATCH_ROOM {
            return None;
        }
        Some(WatchRoom { count })
    }

    pub fn get(&self) -> usize
        ensures count { result ≡ self.now }
        ensures some { 1 ≤ self.now }
        ensures limit { self.now ≤ largest_watch_room }
    {
        self.count as usize
    }
}
