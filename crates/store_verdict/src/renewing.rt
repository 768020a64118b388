//! The texts of touched files, made anew of the map after a set where one of their mounts counts by key: another
//! handle's commit may have changed other keys of the same file since the set was prepared.
ghost use Rattle.std.specs.Prelude.{◌≡◌, ℕ, IfOk, map as over};
ghost use Rattle.std.specs.List.{AllByRecursion};
ghost use Rattle.key_name.specs.Owner.{IsPoints};
ghost use Rattle.model_maps.specs.KeyMap.{KeyMap};
ghost use Rattle.model_store.specs.Sets.{wants};
ghost use Rattle.model_store.specs.Store.{formats_of, store_of};
ghost use Rattle.set_split.specs.Seen.{numbered};
ghost use Rattle.store_verdict.specs.Filing.{IsStorableFile, IsWritable, written_of};
ghost use Rattle.store_verdict.specs.Renewing.{AreAnew, IsAnew, IsRenewable, IsRenewal, MayRenew};

use crate::PrepareFault;
use crate::counting::{any_counts_by_key, counts_by_key};
use crate::entries::entry_of;
use crate::files::{FileToWrite, files_of};
use crate::writing::{WrittenFile, add, write_file};
use backend_files::LONGEST_FILE;
use journal_codec::FileText;
use key_meta::{List, Memory};
use key_name::KeyName;
use key_set::{HEAVIEST_MAP, KeySet};
use mount_table::MountTable;
use mounted_files::Mounted;
use set_split::{Part, owned};
use std::alloc::{AllocError, Global};
use storage_api::Formats;

/// What came of it: the texts in the order of the files' names, or none where no touched mount counts by key; or the
/// lowest mount that counts by key and whose file would be too large, with the weight of its keys or the length of its
/// text.
#[derive(Drop)]
pub enum Renewal {
    Texts { renewed: Option<List<FileText>> },
    TooLarge { mount: usize, bytes: u64 },
}

/// The texts of some files; or the first mount that counts by key and whose file would be too large.
#[derive(Drop)]
pub enum Written {
    All { all: Vec<WrittenFile> },
    TooLarge { mount: usize, bytes: u64 },
}

/// The text of a file; or how much too large it would be, where its mount counts by key.
#[derive(Drop)]
pub enum Anew {
    Text { written: WrittenFile },
    TooLarge { bytes: u64 },
}

/// The texts of the touched files, made anew of some keys where one of their mounts counts by key.
pub fn renew<F: Formats>(
    alloc: Global,
    formats: &F,
    mounted: &Mounted,
    keys: &KeySet,
    touched: &[u32],
) -> Result<Renewal, Memory>
    requires { (procs : ℕ → KeyMap)
        → MayRenew (formats_of F.Formats) (store_of mounted.now procs) keys.now touched.now }
    ensures { IfOk result (λ made. (procs : ℕ → KeyMap) → IsRenewal (formats_of F.Formats) (store_of mounted.now procs) keys.now touched.now made) }
{
    let table = mounted.table();
    if !any_counts_by_key(table, touched) {
        return Ok(Renewal::Texts { renewed: None });
    }
    let parts = parts_of(alloc, table.points(), keys, touched)?;
    let files = files_of(alloc, mounted.files(), &parts)?;
    match write_anew(alloc, formats, table, &files)? {
        Written::All { all } => Ok(Renewal::Texts {
            renewed: Some(entry_of(alloc, table, all)?),
        }),
        Written::TooLarge { mount, bytes } => Ok(Renewal::TooLarge { mount, bytes }),
    }
}

/// What each of some mounts owns of some keys.
fn parts_of(
    alloc: Global,
    points: &[KeyName],
    keys: &KeySet,
    touched: &[u32],
) -> Result<Vec<Part>, Memory>
    requires { IsPoints points.now }
    ensures { IfOk result (λ parts. numbered parts.items ≡ over (λ m. (m, wants points.now keys.now m)) touched.now) }
{
    let mut parts = Vec::with_capacity(alloc, touched.len())?;
    for mount in touched {
        let mount = *mount as usize;
        parts.push(Part {
            mount,
            keys: owned(points, mount, keys)?,
        })?;
    }
    Ok(parts)
}

/// The texts of some files, made file by file.
fn write_anew<F: Formats>(
    alloc: Global,
    formats: &F,
    table: &MountTable,
    files: &[FileToWrite],
) -> Result<Written, Memory>
    requires { AllByRecursion (IsRenewable (formats_of F.Formats) table.now) files.now }
    ensures { IfOk result (AreAnew (formats_of F.Formats) table.now files.now) }
{
    let mut all = Vec::with_capacity(alloc, files.len())?;
    for file in files {
        match write_one(alloc, formats, table, file)? {
            Anew::Text { written } => add(&mut all, written)?,
            Anew::TooLarge { bytes } => {
                return Ok(Written::TooLarge {
                    mount: file.mount,
                    bytes,
                });
            }
        }
    }
    Ok(Written::All { all })
}

/// The text of a file. Where its mount counts by key its keys are weighed before, and the text is measured.
fn write_one<F: Formats>(
    alloc: Global,
    formats: &F,
    table: &MountTable,
    file: &FileToWrite,
) -> Result<Anew, Memory>
    requires { IsRenewable (formats_of F.Formats) table.now file.now }
    ensures { IfOk result (IsAnew (formats_of F.Formats) table.now file.now) }
{
    let by_key = counts_by_key(table, file.mount);
    let weight = file.contents.weight();
    if by_key && weight > HEAVIEST_MAP {
        return Ok(Anew::TooLarge { bytes: weight });
    }
    let written = text_of(alloc, formats, table, file)?;
    let length = written.bytes.as_slice().len() as u64;
    if by_key && length > LONGEST_FILE {
        return Ok(Anew::TooLarge { bytes: length });
    }
    Ok(Anew::Text { written })
}

/// The text of a file whose format can hold what it is to hold.
fn text_of<F: Formats>(
    alloc: Global,
    formats: &F,
    table: &MountTable,
    file: &FileToWrite,
) -> Result<WrittenFile, Memory>
    requires writable { IsWritable table.now file.now }
    requires storable { IsStorableFile (formats_of F.Formats) table.now file.now }
    ensures { IfOk result (λ written. written ≡ written_of (formats_of F.Formats) table.now file.now) }
{
    match write_file(alloc, formats, table, file) {
        Ok(written) => Ok(written),
        Err(PrepareFault::Memory) => Err(AllocError),
        Err(_) => unreachable!(),
    }
}
