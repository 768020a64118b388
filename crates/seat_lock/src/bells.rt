//! How a seat sleeps until its turn: each ticket that is out has a bell of its own, and the end of the turn before it
//! rings that one. One that sleeps is woken a little before.
use std::alloc::{AllocError, Global};
use std::hint;
use std::sync::Wait;
use std::sync::atomic::{AtomicU64, Ordering};
use std::thread::Parker;

/// More than a lock has seats, so no two tickets that are out have one bell. It divides 2^64, so that this stays so
/// where the numbers of the tickets begin again.
const BELLS: u64 = 64;

/// A seat that has so many turns before its own at most looks on, if it is awake. No more seats than these keep a
/// processor.
const NEAR: u64 = 3;

/// A seat that sleeps is woken so many turns before its own, so that this finds it awake.
const EARLY: u64 = 2;

/// How often a seat whose turn is near looks before it sleeps. A turn that comes within so many looks costs no call of
/// the system.
const LOOKS: u32 = 1000;

/// The bells of a lock. One that was rung stays so until somebody waits for it, so no ring is lost. Who is woken looks
/// again, so a ring for nobody costs the next one a look.
#[derive(Drop)]
pub struct Bells {
    bells: Vec<Parker>,
    /// How many seats sleep or are about to. Where none does, nobody need be woken before its turn.
    sleepers: AtomicU64,
}

impl Bells {
    pub fn new(alloc: Global) -> Result<Bells, AllocError> {
        let mut bells = Vec::new(alloc);
        for _ in 0..BELLS {
            bells.push(Parker::new())?;
        }
        Ok(Bells {
            bells,
            sleepers: AtomicU64::new(0),
        })
    }

    /// Waits between two looks of a ticket that has so many turns before it: for a moment where these and the looks are
    /// few, and else for its bell. Answers how many looks there were since the seat slept.
    pub fn wait<R: Wait>(&self, rt: &R, ticket: u64, turns: u64, looks: u32) -> u32 {
        if turns <= NEAR && looks < LOOKS {
            hint::spin_loop();
            return looks + 1;
        }
        if let Some(bell) = self.bell(ticket) {
            self.sleepers.fetch_add(1, Ordering::SeqCst);
            bell.park(rt);
            self.sleepers.fetch_sub(1, Ordering::SeqCst);
        }
        0
    }

    /// Rings the bell of a ticket whose turn it is, and wakes the one whose turn comes near.
    pub fn ring(&self, ticket: u64) {
        let sleepers = self.sleepers.load(Ordering::SeqCst);
        self.wake(ticket);
        if sleepers > 0 {
            self.wake(ticket.wrapping_add(EARLY));
        }
    }

    /// Wakes the seat of a ticket.
    fn wake(&self, ticket: u64) {
        if let Some(bell) = self.bell(ticket) {
            bell.unpark();
        }
    }

    fn bell(&self, ticket: u64) -> Option<&Parker> {
        self.bells.get((ticket % BELLS) as usize)
    }
}
