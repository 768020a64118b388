//! Why a commit has no inverse.
ghost use Rattle.std.specs.Prelude.{◌≡◌};
ghost use Rattle.commit_undo.specs.declared.faults.InverseFault.TheVariants.{Memory};

use key_name::KeyName;
use std::alloc::AllocError;

/// Why a commit can't be taken back. The front is the number of commits.
#[derive(Drop)]
pub enum InverseFault {
    /// No commit has the number.
    NoCommit { number: u64, front: u64 },
    /// A later commit changes one of its names: the first such commit, and the first such name in it.
    Overtaken { name: KeyName, by: u64, front: u64 },
    /// Want of memory.
    Memory,
}

impl From<AllocError> for InverseFault {
    ghost from_gives = { λ _ fault. fault ≡ Memory };

    fn from(_: AllocError) -> InverseFault {
        InverseFault::Memory
    }
}
