//! What a line says.
use crate::{ProcLine, Step};

/// A key that a handle is opened with, whose steps follow, the end of a phase, or a step.
#[derive(Drop)]
pub enum Item {
    Proc(ProcLine),
    Session(u32),
    Phase,
    Does(Step),
}
