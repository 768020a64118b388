//! What a worker asks before each step of its session.

/// A gate may hold a worker back before a step of its session. It is called outside the lock.
pub trait Gate {
    /// Returns once the worker of this session may make this step.
    fn pass(&self, session: u32, step: u32);
}

/// A gate that is always open.
#[derive(Clone, Copy)]
pub struct OpenGate;

impl Gate for OpenGate {
    fn pass(&self, _session: u32, _step: u32) {}
}
