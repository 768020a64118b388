//! The two answers that a call gives when the outside lets it down.
use std::alloc::AllocError;

/// Want of memory.
pub type Memory = AllocError;

/// A source, a sink or a disk failed. Its count of faults rose in the call.
#[derive(Clone, Copy, Debug, PartialEq, Eq)]
pub struct Failed;
