//! What a set of keys at a parent makes, against what its handle keeps, or why it is refused.
ghost use Rattle.std.specs.Prelude.{◌≡◌, ◌<◌, ℕ, IfErr, IfOk, Some, length};
ghost use Rattle.general_words.specs.Memory.{UnlessMemory};
ghost use Rattle.model_maps.specs.KeyMap.{KeyMap};
ghost use Rattle.model_store.specs.Fitting.{NotFetched};
ghost use Rattle.model_store.specs.Store.{formats_of, store_of};
ghost use Rattle.store_verdict.specs.Preparing.{IsMade, IsRefused, fault_of};
ghost use Rattle.store_verdict.specs.RecordView.{handle_of, record_of};
ghost use Rattle.store_verdict.specs.declared.faults.PrepareFault.TheVariants as fault;

use crate::seeing::{Seeing, all_seen};
use crate::texts::texts_of;
use crate::wanting::wanted_of;
use crate::{PrepareFault, Prepared, Record};
use key_meta::Memory;
use key_name::KeyName;
use key_set::KeySet;
use mount_table::MountTable;
use mounted_files::Mounted;
use set_split::involved;
use std::alloc::Global;
use storage_api::Formats;

/// What a set of keys at a parent makes, against what its handle keeps.
///
/// The keys that an involved mount owns are wanted there, in place of those that the record keeps of it. It is touched
/// where they differ. What its file is to hold are the wanted keys and those that it keeps for other mounts.
///
/// The first of these applies: `NotFetched`, for the lowest involved mount that the record has no front of;
/// `ValueTooLong`, for the first key that an involved mount owns with too long a text, its value before its metadata;
/// `FileTooLarge` with a weight, for the lowest touched mount whose file would hold keys of more than 16,777,216;
/// `NotStorable`, for the lowest one whose format can't hold these keys; `FileTooLarge` with a length, for the lowest
/// one whose text would have more than 1,048,576 bytes; `BadTable`, where the keys wanted for `system:/elektra` make no
/// table.
pub fn prepare<F: Formats>(
    alloc: Global,
    formats: &F,
    mounted: &Mounted,
    rec: &Record,
    parent: &KeyName,
    keys: &KeySet,
) -> Result<Prepared, PrepareFault>
    ensures made { IfOk result (λ set. (procs : ℕ → KeyMap) → IsMade (formats_of F.Formats) (store_of mounted.now procs) (handle_of rec.now) (record_of rec.now) parent.now keys.now set) }
    ensures refused { IfErr result (λ why. UnlessMemory fault.Memory ((procs : ℕ → KeyMap) → IsRefused (formats_of F.Formats) (store_of mounted.now procs) (handle_of rec.now) (record_of rec.now) parent.now keys.now why) why) }
{
    let table = mounted.table();
    let mounts = involved(alloc, table.points(), parent)?;
    let seen = match all_seen(alloc, rec, mounts.as_slice())? {
        Seeing::All { seen } => seen,
        Seeing::Missing { mount } => return Err(not_fetched(table, mount)?),
    };
    let wanted = wanted_of(alloc, table.points(), rec, parent, keys)?;
    let texts = match texts_of(
        alloc,
        formats,
        mounted,
        mounts.as_slice(),
        keys,
        wanted.parts.as_slice(),
    ) {
        Ok(texts) => texts,
        Err(why) => return Err(why),
    };
    Ok(Prepared {
        handle: rec.handle(),
        committed: rec.committed(),
        seen,
        keys: keys.copy()?,
        touched: wanted.touched,
        wanted: wanted.parts,
        changes: wanted.changes,
        aside: wanted.aside,
        texts,
    })
}

/// A mount was not fetched.
fn not_fetched(table: &MountTable, mount: usize) -> Result<PrepareFault, Memory>
    requires { mount < length table.now }
    ensures { IfOk result (λ why. fault_of table.now (NotFetched mount) ≡ Some why) }
{
    let Some(mount) = table.mount(mount) else {
        unreachable!()
    };
    Ok(PrepareFault::NotFetched {
        mount: mount.at.copy()?,
    })
}
