//! The texts of files as an entry of the journal, in the order of the files' names.
ghost use Rattle.std.specs.Prelude.{◌≡◌, IfOk, OnOk, map as over};
ghost use Rattle.model_files.specs.Texts.{as_file};
ghost use Rattle.store_verdict.specs.Filing.{by_name, with_written};

use crate::writing::WrittenFile;
use journal_codec::FileText;
use kdb_outside::FileName;
use key_meta::{List, Memory};
use mount_table::MountTable;
use sorted_map::SortedMap;
use std::alloc::Global;

/// The entry of some texts.
pub fn entry_of(
    alloc: Global,
    table: &MountTable,
    all: Vec<WrittenFile>,
) -> Result<List<FileText>, Memory>
    ensures { IfOk result (λ files. files ≡ over as_file (by_name table.now all.items)) }
{
    let texts = texts_by_name(alloc, table, all)?;
    files_from(alloc, texts)
}

/// Texts by the names of their files. Of two files with one name, which no table has, the first one's text stays.
fn texts_by_name(
    alloc: Global,
    table: &MountTable,
    all: Vec<WrittenFile>,
) -> Result<SortedMap<FileName, List<u8>>, Memory>
    ensures { IfOk result (λ texts. texts ≡ by_name table.now all.items) }
{
    let mut left = all;
    let mut texts = SortedMap::new(alloc);
    while let Some(written) = left.pop() {
        add_text(&mut texts, table, written)?;
    }
    Ok(texts)
}

/// Adds the text of a file.
fn add_text(
    texts: &mut SortedMap<FileName, List<u8>>,
    table: &MountTable,
    written: WrittenFile,
) -> Result<(), Memory>
    ensures { OnOk result (texts.new ≡ with_written table.now written texts.old) }
{
    if let Some(mount) = table.mount(written.mount) {
        texts.insert(mount.file.copy()?, written.bytes)?;
    }
    Ok(())
}

/// Texts as the files of an entry.
fn files_from(alloc: Global, texts: SortedMap<FileName, List<u8>>) -> Result<List<FileText>, Memory>
    ensures { IfOk result (λ files. files ≡ over as_file texts) }
{
    let mut texts = texts;
    let mut files = Vec::with_capacity(alloc, texts.len())?;
    for _ in 0..texts.len() {
        let (file, bytes) = texts.remove_at(0);
        files.push(FileText { file, bytes })?;
    }
    Ok(List::from_vec(files))
}
