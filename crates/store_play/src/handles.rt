//! What the handles of a store keep.
ghost use Rattle.std.specs.Prelude.{◌≡◌, ◌<◌, ◌^◌, IfOk, length};
ghost use Rattle.std.specs.List.{AllByRecursion};
ghost use Rattle.store_play.specs.Handles.{AreHandles, AreHandlesOf, AreNew, HoldNothing, places_in, procs_at, records_in};
ghost use Rattle.store_verdict.specs.ProcKeys.{AreProc};

use key_meta::Memory;
use key_set::KeySet;
use std::alloc::Global;
use storage_api::Formats;
use store_core::Plan;
use store_verdict::{Prepared, Record};

/// The record of each handle, and the sets that were prepared and not committed yet. A handle's number is the place of
/// its record, and a set's that of the set.
#[derive(Drop)]
pub struct Handles {
    pub(crate) records: Vec<Record>,
    pub(crate) places: Vec<Option<Prepared>>,
}

impl Handles {
    /// A handle for each of these keys in `proc`, which has fetched nothing, and so many places for sets.
    pub fn new<F: Formats + Drop>(
        alloc: Global,
        plan: &Plan<F>,
        procs: &[KeySet],
        places: usize,
    ) -> Result<Handles, Memory>
        requires few { length procs.now < 2 ^ 32 }
        requires proc { AllByRecursion AreProc procs.now }
        ensures handles { IfOk result (λ made. AreHandles plan.now.mounted (procs_at procs.now) (records_in made)) }
        ensures count { IfOk result (λ made. length (records_in made) ≡ length procs.now) }
        ensures new { IfOk result (λ made. AreNew (records_in made)) }
        ensures places { IfOk result (λ made. length (places_in made) ≡ places) }
        ensures empty { IfOk result (λ made. HoldNothing (places_in made)) }
    {
        let records = new_records(alloc, plan.table().len(), procs)?;
        let places = no_sets(alloc, places)?;
        Ok(Handles { records, places })
    }
}

/// The record of each handle.
fn new_records(alloc: Global, mounts: usize, procs: &[KeySet]) -> Result<Vec<Record>, Memory>
    requires few { length procs.now < 2 ^ 32 }
    requires proc { AllByRecursion AreProc procs.now }
    ensures made { IfOk result (λ records. AreHandlesOf mounts (procs_at procs.now) records.items) }
    ensures count { IfOk result (λ records. length records.items ≡ length procs.now) }
    ensures new { IfOk result (λ records. AreNew records.items) }
{
    let mut records = Vec::with_capacity(alloc, procs.len())?;
    for (handle, proc) in procs.iter().enumerate() {
        records.push(Record::new(alloc, handle as u32, mounts, proc.copy()?)?)?;
    }
    Ok(records)
}

/// Places for sets, with nothing in them.
fn no_sets(alloc: Global, places: usize) -> Result<Vec<Option<Prepared>>, Memory>
    ensures len { IfOk result (λ made. length made.items ≡ places) }
    ensures empty { IfOk result (λ made. HoldNothing made.items) }
{
    let mut made = Vec::with_capacity(alloc, places)?;
    for _ in 0..places {
        made.push(None)?;
    }
    Ok(made)
}
