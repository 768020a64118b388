//! Whether a handle has fetched the mounts that a parent involves.
ghost use Rattle.std.specs.Prelude.{IfOk};
ghost use Rattle.store_verdict.specs.Seeing.{IsSeeing};
ghost use Rattle.store_verdict.specs.RecordView.{record_of};

use crate::Record;
use crate::prepared::Seen;
use key_meta::{List, Memory};
use std::alloc::Global;

/// The fronts of some mounts, or the first of them that was not fetched.
#[derive(Drop)]
pub enum Seeing {
    All { seen: List<Seen> },
    Missing { mount: usize },
}

/// The fronts that a record has of some mounts.
pub fn all_seen(alloc: Global, rec: &Record, mounts: &[usize]) -> Result<Seeing, Memory>
    ensures { IfOk result (IsSeeing (record_of rec.now) mounts.now) }
{
    let mut seen = Vec::with_capacity(alloc, mounts.len())?;
    for mount in mounts {
        match rec.fetched(*mount) {
            Some(front) => seen.push(Seen {
                mount: *mount,
                front,
            })?,
            None => return Ok(Seeing::Missing { mount: *mount }),
        }
    }
    Ok(Seeing::All {
        seen: List::from_vec(seen),
    })
}
