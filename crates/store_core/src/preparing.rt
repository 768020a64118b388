//! What a handle's set of keys makes against what its record keeps.
ghost use Rattle.std.specs.Prelude.{◌≡◌, ℕ, IfErr, IfOk};
ghost use Rattle.general_words.specs.Memory.{UnlessMemory};
ghost use Rattle.model_maps.specs.KeyMap.{KeyMap};
ghost use Rattle.model_store.specs.Store.{formats_of, store_of};
ghost use Rattle.store_verdict.specs.Preparing.{IsMade, IsRefused};
ghost use Rattle.store_verdict.specs.RecordView.{handle_of, record_of};
ghost use Rattle.store_verdict.specs.declared.faults.PrepareFault.TheVariants as fault;

use crate::Plan;
use key_name::KeyName;
use key_set::KeySet;
use std::alloc::Global;
use storage_api::Formats;
use store_verdict::{PrepareFault, Prepared, Record, prepare};

impl<F: Formats + Drop> Plan<F> {
    /// What a set of keys at a parent makes, against what its handle keeps, or the first test that refuses it.
    pub fn prepare(
        &self,
        alloc: Global,
        rec: &Record,
        parent: &KeyName,
        keys: &KeySet,
    ) -> Result<Prepared, PrepareFault>
        ensures made { IfOk result (λ set. (procs : ℕ → KeyMap) → IsMade (formats_of F.Formats) (store_of self.now.mounted procs) (handle_of rec.now) (record_of rec.now) parent.now keys.now set) }
        ensures refused { IfErr result (λ why. UnlessMemory fault.Memory ((procs : ℕ → KeyMap) → IsRefused (formats_of F.Formats) (store_of self.now.mounted procs) (handle_of rec.now) (record_of rec.now) parent.now keys.now why) why) }
    {
        prepare(alloc, &self.formats, self.mounted(), rec, parent, keys)
    }
}
