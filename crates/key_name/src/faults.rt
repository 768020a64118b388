//! Why a text is no name.
ghost use Rattle.std.specs.Prelude.{◌≡◌};
ghost use Rattle.key_name.specs.declared.faults.NameFault.TheVariants.{Memory as OutOfMemory};

use std::alloc::AllocError;

/// Want of memory.
pub type Memory = AllocError;

/// Why a text is refused as a name. Places count bytes of the whole text from 0.
#[derive(Clone, Copy, Debug, PartialEq, Eq)]
pub enum NameFault {
    /// The text neither begins with a slash nor has a colon.
    NoNamespace,
    /// What stands before the first colon is no namespace's word.
    UnknownNamespace,
    /// No slash stands behind the namespace's word.
    NoSlash,
    /// A backslash stands before a byte that it can't escape.
    BadEscape { at: usize },
    /// A part looks like an array's and has no canonical form.
    BadArray { at: usize },
    /// A byte is NUL.
    Nul { at: usize },
    /// The path of the name has more than 4,096 bytes.
    TooLong { bytes: usize },
    /// Want of memory.
    Memory,
}

impl From<AllocError> for NameFault {
    ghost from_gives = { λ _ fault. fault ≡ OutOfMemory };

    fn from(_: AllocError) -> NameFault {
        NameFault::Memory
    }
}
