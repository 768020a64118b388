//! The texts of the files of touched mounts, or what is refused of them.
ghost use Rattle.std.specs.Prelude.{◌≡◌, ℕ, IfErr, IfOk, None, map as over};
ghost use Rattle.std.specs.List.{AllByRecursion};
ghost use Rattle.general_words.specs.Memory.{UnlessMemory};
ghost use Rattle.model_maps.specs.KeyMap.{KeyMap};
ghost use Rattle.model_store.specs.Sets.{Prepared as Set};
ghost use Rattle.model_store.specs.Store.{formats_of, points_at, store_of};
ghost use Rattle.mounted_files.specs.Setting.{first_long_in};
ghost use Rattle.mounted_files.specs.Short.{AreShort};
ghost use Rattle.set_split.specs.Seen.{numbered};
ghost use Rattle.store_verdict.specs.Filing.{AreUnwritten, AreWritten, HasTexts, IsAsked, IsWritable};
ghost use Rattle.store_verdict.specs.Preparing.{IsRefusedSet};
ghost use Rattle.store_verdict.specs.declared.faults.PrepareFault.TheVariants as fault;

use crate::PrepareFault;
use crate::entries::entry_of;
use crate::files::{FileToWrite, files_of};
use crate::long_texts::refuse_long_texts;
use crate::tables::refuse_bad_table;
use crate::weighing::refuse_heavy;
use crate::writing::{refuse_long, write_all};
use journal_codec::FileText;
use key_meta::List;
use key_set::KeySet;
use mount_table::MountTable;
use mounted_files::Mounted;
use set_split::Part;
use std::alloc::Global;
use storage_api::Formats;

/// The texts of the files of touched mounts, in the order of the files' names, or why one of them can't be stored.
pub fn texts_of<F: Formats>(
    alloc: Global,
    formats: &F,
    mounted: &Mounted,
    mounts: &[usize],
    keys: &KeySet,
    touched: &[Part],
) -> Result<List<FileText>, PrepareFault>
    requires { first_long_in (points_at (over (λ file. file.mount) mounted.now)) mounts.now keys.now ≡ None
        → AllByRecursion (λ part. AreShort part.keys) touched.now }
    ensures texts { IfOk result (λ texts. (procs : ℕ → KeyMap) (set : Set) → IsAsked (store_of mounted.now procs) mounts.now keys.now (numbered touched.now) set → HasTexts (formats_of F.Formats) (store_of mounted.now procs) set texts) }
    ensures refused { IfErr result (λ why. UnlessMemory fault.Memory ((procs : ℕ → KeyMap) (set : Set) → IsAsked (store_of mounted.now procs) mounts.now keys.now (numbered touched.now) set → IsRefusedSet (formats_of F.Formats) (store_of mounted.now procs) set why) why) }
{
    let table = mounted.table();
    refuse_long_texts(table, mounts, keys)?;
    let files = files_of(alloc, mounted.files(), touched)?;
    refuse_heavy(table, &files)?;
    written_texts(alloc, formats, table, &files, touched)
}

/// The texts of files that aren't too heavy.
fn written_texts<F: Formats>(
    alloc: Global,
    formats: &F,
    table: &MountTable,
    files: &[FileToWrite],
    touched: &[Part],
) -> Result<List<FileText>, PrepareFault>
    requires { AllByRecursion (IsWritable table.now) files.now }
    ensures texts { IfOk result (AreWritten (formats_of F.Formats) table.now files.now (numbered touched.now)) }
    ensures refused { IfErr result (λ why. UnlessMemory fault.Memory (AreUnwritten (formats_of F.Formats) table.now files.now (numbered touched.now) why) why) }
{
    let all = write_all(alloc, formats, table, files)?;
    refuse_long(table, &all)?;
    refuse_bad_table(alloc, table, touched)?;
    Ok(entry_of(alloc, table, all)?)
}
