//! The texts of files that a set changes.
ghost use Rattle.std.specs.Prelude.{◌≡◌, ◌∷◌, ◌++◌, [], IfErr, IfOk, MatchResult, None, OnOk, map as over};
ghost use Rattle.std.specs.List.{AllByRecursion};
ghost use Rattle.general_words.specs.Memory.{UnlessMemory};
ghost use Rattle.general_words.specs.Searches.{first_some};
ghost use Rattle.key_name.specs.Joining.{joined};
ghost use Rattle.model_names.specs.WellFormed.{IsName};
ghost use Rattle.model_names.specs.declared.namespaces.Namespace.TheVariants.{Cascading};
ghost use Rattle.model_store.specs.Store.{formats_of};
ghost use Rattle.store_verdict.specs.Filing.{BreaksAmong, BreaksFile, IsStorableFile, IsTold, IsWritable, long_at, written_of};
ghost use Rattle.store_verdict.specs.declared.faults.PrepareFault.TheVariants as fault;

use crate::PrepareFault;
use crate::files::FileToWrite;
use backend_files::LONGEST_FILE;
use key_meta::{List, Memory};
use key_name::{KeyName, NameFault};
use mount_table::MountTable;
use std::alloc::{AllocError, Global};
use storage_api::{Formats, WriteRefusal};

/// The text of the file of a mount.
#[derive(Drop)]
pub struct WrittenFile {
    pub mount: usize,
    pub bytes: List<u8>,
}

/// The texts of some files. The first is refused that its format can't hold.
pub fn write_all<F: Formats>(
    alloc: Global,
    formats: &F,
    table: &MountTable,
    files: &[FileToWrite],
) -> Result<Vec<WrittenFile>, PrepareFault>
    requires { AllByRecursion (IsWritable table.now) files.now }
    ensures texts { IfOk result (λ all. all.items ≡ over (written_of (formats_of F.Formats) table.now) files.now) }
    ensures storable { IfOk result (λ all. AllByRecursion (IsStorableFile (formats_of F.Formats) table.now) files.now) }
    ensures refused { IfErr result (λ why. UnlessMemory fault.Memory (BreaksAmong (formats_of F.Formats) table.now files.now why) why) }
{
    let mut all = Vec::with_capacity(alloc, files.len())?;
    for file in files {
        let written = write_file(alloc, formats, table, file)?;
        add(&mut all, written)?;
    }
    Ok(all)
}

/// Adds a text.
pub fn add(all: &mut Vec<WrittenFile>, written: WrittenFile) -> Result<(), Memory>
    ensures { OnOk result (all.new.items ≡ all.old.items ++ written ∷ []) }
{
    all.push(written)?;
    Ok(())
}

/// The text of a file, which is refused where its format can't hold the keys.
pub fn write_file<F: Formats>(
    alloc: Global,
    formats: &F,
    table: &MountTable,
    file: &FileToWrite,
) -> Result<WrittenFile, PrepareFault>
    requires { IsWritable table.now file.now }
    ensures text { IfOk result (λ written. written ≡ written_of (formats_of F.Formats) table.now file.now) }
    ensures storable { IfOk result (λ written. IsStorableFile (formats_of F.Formats) table.now file.now) }
    ensures refused { IfErr result (λ why. UnlessMemory fault.Memory (BreaksFile (formats_of F.Formats) table.now file.now why) why) }
{
    let Some(mount) = table.mount(file.mount) else {
        return Ok(WrittenFile {
            mount: file.mount,
            bytes: List::from_vec(Vec::new(alloc)),
        });
    };
    match formats.write(alloc, mount.kind, &file.contents) {
        Ok(bytes) => Ok(WrittenFile {
            mount: file.mount,
            bytes: List::from_vec(bytes),
        }),
        Err(WriteRefusal::NotStorable { key }) => Err(not_storable(&mount.at, &key)?),
        Err(WriteRefusal::Memory) => Err(PrepareFault::Memory),
    }
}

/// A format can't hold a key, whose whole name is told.
fn not_storable(mount: &KeyName, key: &KeyName) -> Result<PrepareFault, Memory>
    requires cascading { key.now.namespace ≡ Cascading }
    requires name { IsName (joined mount.now key.now) }
    ensures { IfOk result (λ why. why ≡ fault.NotStorable mount.now (joined mount.now key.now)) }
{
    match mount.join(key) {
        Ok(key) => Ok(PrepareFault::NotStorable {
            mount: mount.copy()?,
            key,
        }),
        Err(NameFault::Memory) => Err(AllocError),
        Err(_) => unreachable!(),
    }
}

/// The first text that is too long for a file is refused.
pub fn refuse_long(table: &MountTable, all: &[WrittenFile]) -> Result<(), PrepareFault>
    ensures { MatchResult result (λ _. first_some (long_at table.now) all.now ≡ None) (IsTold table.now (first_some (long_at table.now) all.now)) }
{
    for written in all {
        refuse_if_long(table, written)?;
    }
    Ok(())
}

/// A text that is too long for a file is refused.
fn refuse_if_long(table: &MountTable, written: &WrittenFile) -> Result<(), PrepareFault>
    ensures { MatchResult result (λ _. long_at table.now written.now ≡ None) (IsTold table.now (long_at table.now written.now)) }
{
    let Some(mount) = table.mount(written.mount) else {
        return Ok(());
    };
    let bytes = written.bytes.as_slice().len() as u64;
    if bytes > LONGEST_FILE {
        return Err(PrepareFault::FileTooLarge {
            mount: mount.at.copy()?,
            bytes,
        });
    }
    Ok(())
}
