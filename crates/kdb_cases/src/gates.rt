//! A gate that counts.

use kdb_outside::Gate;
use std::sync::atomic::{AtomicU64, Ordering};

/// Counts the steps that pass it, and holds none of them.
#[derive(Drop)]
pub struct CountingGate {
    passes: AtomicU64,
}

impl CountingGate {
    pub fn new() -> CountingGate {
        CountingGate {
            passes: AtomicU64::new(0),
        }
    }

    pub fn passes(&self) -> u64 {
        self.passes.load(Ordering::SeqCst)
    }
}

impl Gate for CountingGate {
    fn pass(&self, _session: u32, _step: u32) {
        self.passes.fetch_add(1, Ordering::SeqCst);
    }
}
