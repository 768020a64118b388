//! What the files of all mounts mean together.
ghost use Rattle.std.specs.Prelude.{◌≡◌, ◌≤◌, map as over};
ghost use Rattle.std.specs.List.{sum_by};
ghost use Rattle.model_maps.specs.KeyMap.{heaviest_map};
ghost use Rattle.mounted_files.specs.Opening.{IsMadeByKeys};
ghost use Rattle.mounted_files.specs.Short.{HaveShortTexts};
ghost use Rattle.mounted_files.specs.Weighed.{visible_weight};

use crate::MountedFile;
use mount_table::MountTable;
use std::marker::Model;

/// A mount table, and the state of each mount's file. Seen as the list of mounts with their states.
#[derive(Drop)]
pub struct Mounted {
    table: MountTable,
    files: Vec<MountedFile>,
}

impl Model for Mounted {
    ghost use Rattle.std.specs.Prelude.{List};
    ghost use Rattle.mounted_files.specs.declared.files.MountedFile.{MountedFile};
    ghost use Rattle.std.specs.Coded.{coded_list};
    ghost use Rattle.mounted_files.specs.contracts.files.MountedFile.{the_row};

    ghost Value = { List MountedFile };

    ghost coded = { coded_list the_row.coded };

    ghost use Rattle.mounted_files.specs.MountedView.{IsMounted};

    ghost view = { λ m. m.files.items };

    ghost invariant = { IsMounted };
}

impl Mounted {
    /// The files of a table's mounts.
    pub(crate) fn new(table: MountTable, files: Vec<MountedFile>) -> Mounted
        requires table { over (λ file. file.mount) files.items ≡ table }
        requires made { IsMadeByKeys table }
        requires short { HaveShortTexts files.items }
        requires light { sum_by (λ file. visible_weight file.state) files.items ≤ heaviest_map }
        ensures { result ≡ files.items }
    {
        Mounted { table, files }
    }

    /// The table of the mounts, which some keys make.
    pub fn table(&self) -> &MountTable
        ensures mounts { result.now ≡ over (λ file. file.mount) self.now }
        ensures made { IsMadeByKeys result.now }
    {
        &self.table
    }

    /// The files, in the order of the table. No text of their keys is too long, and their visible keys together weigh
    /// 16,777,216 at most.
    pub fn files(&self) -> &[MountedFile]
        ensures files { result.now ≡ self.now }
        ensures short { HaveShortTexts self.now }
        ensures light { sum_by (λ file. visible_weight file.state) self.now ≤ heaviest_map }
    {
        &self.files
    }
}
