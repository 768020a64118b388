//! Why bytes aren't read as an entry or a header.
ghost use Rattle.std.specs.Prelude.{◌≡◌};
ghost use Rattle.journal_codec.specs.Stops.{fault_at};

use thiserror::Error;

/// Why there is no entry, or no header.
#[derive(Clone, Copy, Debug, PartialEq, Eq, Error)]
pub enum DecodeFault {
    /// The first field that is missing, cut or against a rule begins at this place of the bytes, counted from 0.
    #[error("bad journal at {at}")]
    BadJournal { at: u64 },
    #[error("out of memory")]
    Memory,
}

/// Why reading stopped.
#[derive(Clone, Copy)]
pub(crate) enum Stop {
    /// The first field that has no reading begins so many bytes before the end.
    Before { left: usize },
    Memory,
}

/// The fault that this stop is, of so many bytes.
pub(crate) fn fault_of(size: usize, stop: Stop) -> DecodeFault
    ensures { result ≡ fault_at size stop }
{
    match stop {
        Stop::Before { left } => DecodeFault::BadJournal {
            at: size.saturating_sub(left) as u64,
        },
        Stop::Memory => DecodeFault::Memory,
    }
}
