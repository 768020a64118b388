//! Gates that note who passed.
use kdb_outside::Gate;
use std::sync::atomic::{AtomicU64, Ordering};
use std::thread;

/// How often a session looks whether the others are there.
const MOST_LOOKS: u32 = 1_000_000;

/// Holds each session before its second step until so many are there. One that looked too often goes on without them,
/// and that is counted.
#[derive(Drop)]
pub struct MeetingGate {
    sessions: u64,
    there: AtomicU64,
    missed: AtomicU64,
}

impl MeetingGate {
    pub fn new(sessions: u64) -> MeetingGate {
        MeetingGate {
            sessions,
            there: AtomicU64::new(0),
            missed: AtomicU64::new(0),
        }
    }

    /// How many sessions went on without the others.
    pub fn missed(&self) -> u64 {
        self.missed.load(Ordering::SeqCst)
    }
}

impl Gate for MeetingGate {
    fn pass(&self, _session: u32, step: u32) {
        if step != 2 {
            return;
        }
        self.there.fetch_add(1, Ordering::SeqCst);
        for _ in 0..MOST_LOOKS {
            if self.there.load(Ordering::SeqCst) >= self.sessions {
                return;
            }
            thread::yield_now();
        }
        self.missed.fetch_add(1, Ordering::SeqCst);
    }
}

/// Counts its calls, and adds up what it is told: a hundred for each number of a session, and one for each of a step.
#[derive(Drop)]
pub struct CountingGate {
    calls: AtomicU64,
    told: AtomicU64,
}

impl CountingGate {
    pub fn new() -> CountingGate {
        CountingGate {
            calls: AtomicU64::new(0),
            told: AtomicU64::new(0),
        }
    }

    pub fn calls(&self) -> u64 {
        self.calls.load(Ordering::SeqCst)
    }

    pub fn told(&self) -> u64 {
        self.told.load(Ordering::SeqCst)
    }
}

impl Gate for CountingGate {
    fn pass(&self, session: u32, step: u32) {
        self.calls.fetch_add(1, Ordering::SeqCst);
        let told = (session as u64)
            .saturating_mul(100)
            .saturating_add(step as u64);
        self.told.fetch_add(told, Ordering::SeqCst);
    }
}
