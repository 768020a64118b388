//! What a call changed, as a disk in memory records it.
ghost use Rattle.std.specs.Prelude.{◌≡◌, IfOk};

use kdb_outside::{FileName, Memory};
use std::alloc::Global;
use std::marker::Model;

/// The bytes of a write.
#[derive(Drop)]
pub(crate) struct Piece {
    bytes: Vec<u8>,
}

impl Model for Piece {
    ghost use Rattle.std.specs.Prelude.{List, ℕ};

    ghost Value = { List ℕ };

    ghost view = { λ p. p.bytes.items };
}

impl Piece {
    pub(crate) fn new(alloc: Global, bytes: &[u8]) -> Result<Piece, Memory>
        ensures { IfOk result (λ piece. piece ≡ bytes.now) }
    {
        Ok(Piece {
            bytes: Vec::from_slice(alloc, bytes)?,
        })
    }

    pub(crate) fn bytes(&self) -> &[u8]
        ensures { result.now ≡ self.now }
    {
        &self.bytes
    }
}

/// A call on a file that went through.
#[derive(Drop)]
pub(crate) enum Step {
    Wrote { at: u64, bytes: Piece },
    Cut { new_length: u64 },
    Synced,
}

impl Step {
    /// A write of these bytes.
    pub(crate) fn wrote(alloc: Global, at: u64, bytes: &[u8]) -> Result<Step, Memory>
        ensures { IfOk result (λ step. step ≡ Step.Wrote at bytes.now) }
    {
        Ok(Step::Wrote {
            at,
            bytes: Piece::new(alloc, bytes)?,
        })
    }
}

/// A step, and the file on which it was made.
#[derive(Drop)]
pub(crate) struct Change {
    pub(crate) file: FileName,
    pub(crate) step: Step,
}
