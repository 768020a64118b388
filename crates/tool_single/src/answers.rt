//! How the work for a command line ends.
ghost use Rattle.std.specs.Prelude.{◌≡◌};
ghost use Rattle.tool_single.specs.declared.answers.Stop.TheVariants.{Memory as OutOfMemory};

use std::alloc::AllocError;
use tool_commands::Report;

/// Why there is no answer.
#[derive(Clone, Copy, PartialEq, Eq)]
pub enum Stop {
    Memory,
    DiskFault,
    ReadFault,
}

impl From<AllocError> for Stop {
    ghost from_gives = { λ _ stop. stop ≡ OutOfMemory };

    fn from(_: AllocError) -> Stop {
        Stop::Memory
    }
}

/// What is told, or why nothing is, and the disk and the matcher that were handed in. What an answer stores is stored
/// by then.
#[derive(Drop)]
pub struct Ended<D, P> {
    pub answer: Result<Report, Stop>,
    pub disk: D,
    pub patterns: P,
}
