//! The mounts of a store with the head of its journal, which names their files.
ghost use Rattle.std.specs.Prelude.{◌≡◌, IfOk, map as over};
ghost use Rattle.std.specs.FinMap as map;
ghost use Rattle.journal_codec.specs.Header.{header_bytes};
ghost use Rattle.model_files.specs.Files.{file_names};
ghost use Rattle.store_core.specs.Heads.{names_at};

use journal_codec::encode_header;
use kdb_outside::FileName;
use key_meta::Memory;
use mount_table::MountTable;
use mounted_files::Mounted;
use sorted_map::SortedMap;
use std::alloc::Global;
use std::marker::Model;

/// Mounts with what their files held, and the header of a journal that names these files. Seen as the mounted files.
#[derive(Drop)]
pub(crate) struct Headed {
    mounted: Mounted,
    header: Vec<u8>,
}

impl Model for Headed {
    ghost use Rattle.std.specs.Prelude.{List};
    ghost use Rattle.mounted_files.specs.declared.files.MountedFile.{MountedFile};
    ghost use Rattle.std.specs.Coded.{coded_list};
    ghost use Rattle.mounted_files.specs.contracts.files.MountedFile.{the_row};

    ghost Value = { List MountedFile };

    ghost coded = { coded_list the_row.coded };

    ghost use Rattle.store_core.specs.HeadedView.{IsHeaded};

    ghost view = { λ h. h.mounted };

    ghost invariant = { IsHeaded };
}

impl Headed {
    /// Mounted files with the header that names them.
    pub(crate) fn new(alloc: Global, mounted: Mounted) -> Result<Headed, Memory>
        ensures { IfOk result (λ headed. headed ≡ mounted) }
    {
        let names = names_of(alloc, mounted.table())?;
        let header = encode_header(alloc, &names)?;
        Ok(Headed { mounted, header })
    }

    pub(crate) fn mounted(&self) -> &Mounted
        ensures { result.now ≡ self.now }
    {
        &self.mounted
    }

    /// The header of the journal, and the closed gate of an empty list behind it.
    pub(crate) fn header(&self) -> &[u8]
        ensures { result.now ≡ header_bytes (names_at (over (λ file. file.mount) self.now)) }
    {
        &self.header
    }
}

/// The names of the files of a table's mounts, each once and in the order of their bytes.
fn names_of(alloc: Global, table: &MountTable) -> Result<Vec<FileName>, Memory>
    ensures { IfOk result (λ names. names.items ≡ names_at table.now) }
{
    let files = files_of(alloc, table)?;
    let mut names = Vec::with_capacity(alloc, files.len())?;
    for entry in files.entries() {
        names.push(entry.0.copy()?)?;
    }
    Ok(names)
}

/// The files of a table's mounts, each once.
fn files_of(alloc: Global, table: &MountTable) -> Result<SortedMap<FileName, ()>, Memory>
    ensures { IfOk result (λ files. files ≡ map.entries (file_names table.now)) }
{
    let mut files = SortedMap::new(alloc);
    let mut left = table.len();
    while left > 0 {
        left -= 1;
        let Some(mount) = table.mount(left) else {
            unreachable!()
        };
        files.insert(mount.file.copy()?, ())?;
    }
    Ok(files)
}
