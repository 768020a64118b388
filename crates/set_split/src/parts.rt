//! The parts that a key set is split into.
ghost use Rattle.std.specs.Prelude.{◌≡◌, IfOk};

use key_meta::{List, Memory};
use key_set::KeySet;
use std::alloc::Global;

/// The keys that a mount owns, with the number of the mount.
#[derive(Drop)]
pub struct Part {
    pub mount: usize,
    pub keys: KeySet,
}

/// The parts of a key set, and how many of its keys are in none of them.
#[derive(Drop)]
pub struct Parts {
    /// One part for each mount that is involved, by their numbers. A part may be empty.
    pub parts: List<Part>,
    /// How many keys no involved mount owns.
    pub aside: u64,
}

impl Parts {
    /// The same parts again, which share their keys with these until one of the two changes.
    pub fn copy(&self, alloc: Global) -> Result<Parts, Memory>
        ensures { IfOk result (λ copied. copied ≡ self.now) }
    {
        let parts = copy_of(alloc, self.parts.as_slice())?;
        Ok(Parts {
            parts: List::from_vec(parts),
            aside: self.aside,
        })
    }
}

/// The same parts again.
fn copy_of(alloc: Global, parts: &[Part]) -> Result<Vec<Part>, Memory>
    ensures { IfOk result (λ copied. copied.items ≡ parts.now) }
{
    let mut copied = Vec::with_capacity(alloc, parts.len())?;
    for part in parts {
        let keys = part.keys.copy()?;
        copied.push(Part {
            mount: part.mount,
            keys,
        })?;
    }
    Ok(copied)
}
