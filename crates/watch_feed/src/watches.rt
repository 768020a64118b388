//! A watch: which changes at or below a parent were not told yet. A ring keeps the last ones, and the others are
//! counted.
ghost use Rattle.std.specs.Prelude.{◌≡◌, ◌≤◌, IfOk, OnErr, OnOk, length};
ghost use Rattle.watch_feed.specs.Watches.{collected, most_room, news_of, polled, watching};

use crate::rings::{hand_out, keep};
use crate::telling::news_behind;
use crate::{Changed, News};
use circular_buffer::HeapCircularBuffer;
use commit_log::History;
use key_meta::{List, Memory};
use key_name::KeyName;
use std::alloc::Global;
use std::marker::Model;

/// The most changes that a watch may have room for.
pub const MOST_ROOM: usize = 4096;

/// A parent, how many commits of the history were looked at, and what is to be told of them.
#[derive(Drop)]
pub struct Watch {
    parent: KeyName,
    front: u64,
    ring: HeapCircularBuffer<Changed>,
    missed: u64,
}

impl Model for Watch {
    ghost use Rattle.std.specs.Prelude.{◌+◌, ◌*◌, ◌≤◌, length};
    ghost use Rattle.model_history.specs.History.{heaviest_history};
    ghost use Rattle.watch_feed.specs.Watches.{WatchValue, coded_watch};

    ghost Value = { WatchValue };

    ghost coded = { coded_watch };

    ghost view = { λ w. record { parent = w.parent; room = w.ring.capacity; front = w.front; ring = w.ring.items; missed = w.missed } };

    // No history has more changes than it weighs, so the count of those left out fits its type.
    ghost invariant = { λ w. w.missed + length w.ring.items ≤ w.front * heaviest_history };
}

impl Watch {
    /// A watch that has looked at the commits up to a front, and has nothing to tell.
    pub fn new(alloc: Global, parent: KeyName, room: usize, front: u64) -> Result<Watch, Memory>
        requires { (1 ≤ room) × (room ≤ most_room) }
        ensures { IfOk result (λ watch. watch ≡ watching parent room front) }
    {
        let ring = HeapCircularBuffer::with_capacity(alloc, room)?;
        Ok(Watch {
            parent,
            front,
            ring,
            missed: 0,
        })
    }

    /// How many commits it has looked at.
    pub fn front(&self) -> u64
        ensures { result ≡ self.now.front }
    {
        self.front
    }

    /// Looks at the commits behind its front. Of what it has to tell it keeps the last changes, as many as it has room
    /// for, and counts those that it leaves out.
    pub fn collect(&mut self, history: &History) -> Result<(), Memory>
        requires { self.old.front ≤ length history.now.commits }
        ensures ok { OnOk result (self.new ≡ collected self.old history.now.commits) }
        ensures err { OnErr result (self.new ≡ self.old) }
    {
        let alloc = *self.ring.allocator();
        let commits = history.behind(self.front);
        let told = news_behind(alloc, commits, self.front, &self.parent)?;
        self.missed += keep(&mut self.ring, told);
        self.front = history.len();
        Ok(())
    }

    /// Hands out what it has to tell, and has nothing to tell then.
    pub fn poll(&mut self) -> Result<News, Memory>
        ensures news { IfOk result (λ news. news ≡ news_of self.old) }
        ensures ok { OnOk result (self.new ≡ polled self.old) }
        ensures err { OnErr result (self.new ≡ self.old) }
    {
        let alloc = *self.ring.allocator();
        let changes = hand_out(alloc, &mut self.ring)?;
        let news = News {
            front: self.front,
            missed: self.missed,
            changes: List::from_vec(changes),
        };
        self.missed = 0;
        Ok(news)
    }
}
