//! What is played: events, and flushes between them.

use store_play::Event;

/// Events, and how many of them are before each flush.
#[derive(Clone, Copy)]
pub struct Steps<'a> {
    pub events: &'a [Event],
    pub flushes: &'a [usize],
}

impl<'a> Steps<'a> {
    /// The first of the events, with the flushes between them.
    pub fn front(self, count: usize) -> Steps<'a> {
        let count = count.min(self.events.len());
        Steps {
            events: &self.events[..count],
            flushes: self.flushes,
        }
    }

    /// No event.
    pub fn none() -> Steps<'static> {
        Steps {
            events: &[],
            flushes: &[],
        }
    }
}

/// Steps that were played, and the number of the crash behind them.
#[derive(Drop)]
pub struct Past {
    pub events: Vec<Event>,
    pub flushes: Vec<usize>,
    pub choice: u64,
}

impl Past {
    pub fn steps(&self) -> Steps<'_> {
        Steps {
            events: &self.events,
            flushes: &self.flushes,
        }
    }
}
