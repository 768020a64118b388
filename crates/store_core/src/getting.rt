//! What a get gives a handle.
ghost use Rattle.std.specs.Prelude.{◌≡◌, ◌≤◌, ◌⊎◌, ℕ, Option, Some, true, length};
ghost use Rattle.model_maps.specs.KeyMap.{KeyMap};
ghost use Rattle.model_store.specs.Records as model;
ghost use Rattle.model_store.specs.Sets as sets;
ghost use Rattle.model_store.specs.Store.{formats_of, store_of};
ghost use Rattle.mounted_files.specs.declared.refusals.GetFault.TheVariants as fault;
ghost use Rattle.store_core.specs.Gets.{HasGot, fault_at, is_bad_mount};
ghost use Rattle.store_verdict.specs.RecordView.{handle_of, places_of, proc_of, record_of};

use crate::{Core, Plan};
use kdb_outside::Disk;
use key_name::KeyName;
use key_set::KeySet;
use mounted_files::{FileState, GetFault, MountedFile, fault_of};
use regex_check::Patterns;
use std::alloc::Global;
use storage_api::Formats;
use store_verdict::{Getting, Record, get};

/// What a get gives: how many commits there were, and the keys.
#[derive(Drop)]
pub struct Got {
    pub front: u64,
    pub keys: KeySet,
}

impl<D: Disk, P: Patterns + Drop> Core<D, P> {
    /// The keys that a parent involves, and with them the handle's own where the parent is cascading or in `proc`. The
    /// record keeps the number of commits and a copy for each involved mount. It is refused exactly where such a mount
    /// is bad, with the lowest one and why; the record then stays.
    pub fn get<F: Formats + Drop>(
        &self,
        alloc: Global,
        plan: &Plan<F>,
        rec: &mut Record,
        parent: &KeyName,
    ) -> Result<Got, GetFault>
        requires places { length plan.now.mounted ≤ places_of rec.old }
        ensures got { (procs : ℕ → KeyMap) (records : ℕ → model.Record) (prepared : ℕ → Option sets.Prepared)
            → procs (handle_of rec.old) ≡ proc_of rec.old → records (handle_of rec.old) ≡ record_of rec.old
            → HasGot (formats_of F.Formats) (store_of plan.now.mounted procs) plan.now.mounted self.now records prepared parent.now rec.old rec.new result }
        ensures handle { handle_of rec.new ≡ handle_of rec.old }
        ensures places { places_of rec.new ≡ places_of rec.old }
        ensures proc { proc_of rec.new ≡ proc_of rec.old }
    {
        let front = self.history.len();
        let mounted = plan.mounted();
        let got = match get(alloc, mounted, &self.keys, front, rec, parent) {
            Ok(got) => got,
            Err(_) => return Err(GetFault::Memory),
        };
        match got {
            Getting::Keys { keys } => Ok(Got { front, keys }),
            Getting::Bad { mount } => Err(fault_at(mounted.files(), mount)),
        }
    }
}

/// Why a bad mount is bad.
fn fault_at(files: &[MountedFile], mount: usize) -> GetFault
    requires { is_bad_mount files.now mount ≡ true }
    ensures { (result ≡ fault.Memory) ⊎ (fault_at files.now mount ≡ Some result) }
{
    let Some(file) = files.get(mount) else {
        unreachable!()
    };
    let FileState::Bad { cause } = &file.state else {
        unreachable!()
    };
    match fault_of(&file.mount.at, *cause) {
        Ok(fault) => fault,
        Err(_) => GetFault::Memory,
    }
}
