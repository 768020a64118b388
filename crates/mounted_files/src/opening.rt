//! An opening: the table's own file begins it, and the files of the other mounts are added one by one, in the order of
//! the table. Each is weighed as it comes, so that the keys of one that is too heavy are not kept.
ghost use Rattle.std.specs.Prelude.{◌≡◌, ◌+◌, ◌<◌, ◌^◌, ℕ, List, [], length, slice_get, Some, Ok, IfOk, OnOk, OnErr, MatchResult, map as over};
ghost use Rattle.std.specs.List.Sorted.{IsStrictlySortedBy};
ghost use Rattle.std.specs.Option.{option_copied};
ghost use Rattle.backend_files.specs.WholeFile.{IsWhole};
ghost use Rattle.mount_table.specs.Table.{own_mount, table_of};
ghost use Rattle.mount_table.specs.declared.mounts.Mount.{Mount};
ghost use Rattle.model_names.specs.Order.{name_cmp};
ghost use Rattle.mounted_files.specs.Begins.{Begins};
ghost use Rattle.mounted_files.specs.Begun.{number_of, others};
ghost use Rattle.mounted_files.specs.Files.{IsState};
ghost use Rattle.mounted_files.specs.Holding.{IsShortHolding, IsStateOf};
ghost use Rattle.mounted_files.specs.Opening.{IsOpened, RefusesOpening};
ghost use Rattle.mounted_files.specs.OwnPlace.{HasOwn};
ghost use Rattle.mounted_files.specs.Owned.{not_owned_by};
ghost use Rattle.mounted_files.specs.Short.{AreShort, HasShortTexts};
ghost use Rattle.mounted_files.specs.Weighed.{weighed_behind};
ghost use Rattle.mounted_files.specs.Writable.{AllCanBeWritten, CanBeWritten, CanBeWrittenSoFar};
ghost use Rattle.mounted_files.specs.declared.files.FileState.TheVariants.{Good};
ghost use Rattle.set_split.specs.Parts.{owned_by};

use crate::holding::{Holding, read_holding};
use crate::owned::good_state;
use crate::table_file::{TableFile, read_table_file};
use crate::weighing::{weigh, weigh_state};
use crate::{FileState, Mounted, MountedFile, OpenRefusal};
use backend_files::FileRead;
use key_meta::Memory;
use key_name::KeyName;
use key_set::KeySet;
use mount_table::{Mount, MountTable, is_own_point};
use std::alloc::Global;
use std::marker::Model;
use storage_api::Formats;

/// A mount table with the state of its own file, and the states of the files of its first other mounts. All are
/// weighed.
#[derive(Drop)]
pub struct Opening {
    table: MountTable,
    place: usize,
    own: FileState,
    files: Vec<MountedFile>,
    sum: u64,
}

impl Model for Opening {
    ghost use Rattle.std.specs.Prelude.{ℕ, List, refl};
    ghost use Rattle.std.specs.Coded.{code_by, coded_list, coded_ℕ, coded×};
    ghost use Rattle.mount_table.specs.contracts.mounts.Mount as mount;
    ghost use Rattle.mount_table.specs.declared.mounts.Mount.{Mount};
    ghost use Rattle.mounted_files.specs.declared.files.FileState.{FileState};
    ghost use Rattle.mounted_files.specs.declared.files.MountedFile.{MountedFile};
    ghost use Rattle.mounted_files.specs.contracts.files.FileState as state;
    ghost use Rattle.mounted_files.specs.contracts.files.MountedFile as file;
    ghost use Rattle.mounted_files.specs.Begun.{Begun};

    ghost Value = { Begun };

    ghost coded = { code_by (List Mount × (ℕ × (FileState × List MountedFile))) (coded× (coded_list mount.the_row.coded) (coded× coded_ℕ (coded× state.the_row.coded (coded_list file.the_row.coded)))) (λ b. (b.table, (b.place, (b.own, b.files)))) (λ p. record { table = p.0; place = p.1.0; own = p.1.1.0; files = p.1.1.1 }) (λ _. refl) };

    ghost use Rattle.mounted_files.specs.MountedView.{IsBegun};

    ghost view = { λ o. record { table = o.table; place = o.place; own = o.own; files = o.files.items } };

    ghost invariant = { IsBegun };
}

impl Opening {
    /// Begins an opening, given what `elektra.ecf` gave, the file of the table's own keys. They make the table.
    /// `TooLong` and `BadFile` come where that file is too long or holds no keys, and `BadTable` where its keys make no
    /// table.
    pub fn new<F: Formats>(
        alloc: Global,
        formats: &F,
        own: &FileRead,
    ) -> Result<Opening, OpenRefusal>
        ensures begins { (bytes_of : List ℕ → List ℕ) → IsWhole (bytes_of own_mount.file) own.now →
            MatchResult result (Begins F.reads F.is_bad_at bytes_of) (RefusesOpening F.reads F.is_bad_at (bytes_of own_mount.file)) }
        ensures none { IfOk result (λ opening. opening.files ≡ []) }
        ensures storable { IfOk result (CanBeWrittenSoFar F.is_storable) }
    {
        match read_table_file(alloc, formats, own) {
            Ok(TableFile { table, keys }) => Ok(begun(alloc, table, keys)?),
            Err(refusal) => Err(refusal),
        }
    }

    /// How many other mounts there are.
    pub fn len(&self) -> usize
        ensures { result ≡ length (others self.now) }
    {
        self.table.len() - 1
    }

    /// The mount whose file is to be added next.
    pub fn next(&self) -> Option<&Mount>
        ensures { option_copied result ≡ slice_get (others self.now) (length self.now.files) }
    {
        self.table.mount(number_of(self.place, self.files.len()))
    }

    /// Adds the file of the next mount, given what it gave.
    pub fn add<F: Formats>(
        &mut self,
        alloc: Global,
        formats: &F,
        read: &FileRead,
    ) -> Result<(), Memory>
        requires { length self.old.files < length (others self.old) }
        ensures step { (bytes_of : List ℕ → List ℕ) (mount : Mount) →
            Begins F.reads F.is_bad_at bytes_of self.old →
            slice_get (others self.old) (length self.old.files) ≡ Some mount →
            IsWhole (bytes_of mount.file) read.now →
            OnOk result (Begins F.reads F.is_bad_at bytes_of self.new) }
        ensures count { OnOk result (length self.new.files ≡ length self.old.files + 1) }
        ensures storable { CanBeWrittenSoFar F.is_storable self.old
            → OnOk result (CanBeWrittenSoFar F.is_storable self.new) }
        ensures others { others self.new ≡ others self.old }
        ensures err { OnErr result (self.new ≡ self.old) }
    {
        let number = number_of(self.place, self.files.len());
        let Some(mount) = self.table.mount(number) else {
            unreachable!()
        };
        let mut file = mounted_file(alloc, formats, self.table.points(), number, mount, read)?;
        let sum = weigh(&mut file, self.sum);
        self.files.push(file)?;
        self.sum = sum;
        Ok(())
    }

    /// All files together, once each mount has its file: the table's own file was weighed first, and then the others in
    /// the order of the table. A mount is bad whose visible keys bring the weight of all of them over 16,777,216.
    pub fn mounted<F: Formats>(self, _formats: &F) -> Result<Mounted, Memory>
        requires { length self.files ≡ length (others self) }
        ensures opened { IfOk result (λ mounted. (bytes_of : List ℕ → List ℕ) → Begins F.reads F.is_bad_at bytes_of self → IsOpened F.reads F.is_bad_at bytes_of mounted) }
        ensures storable { CanBeWrittenSoFar F.is_storable self → IfOk result (AllCanBeWritten F.is_storable) }
    {
        let Some(mount) = self.table.mount(self.place) else {
            unreachable!()
        };
        let own = MountedFile {
            mount: mount.copy()?,
            state: self.own,
        };
        let mut files = self.files;
        files.insert(self.place, own)?;
        Ok(Mounted::new(self.table, files))
    }
}

/// An opening by the table, and the keys that the table's own file holds.
fn begun(alloc: Global, table: MountTable, keys: KeySet) -> Result<Opening, Memory>
    requires table { table_of keys ≡ Ok table }
    requires short { AreShort keys }
    ensures table { IfOk result (λ opening. opening.table ≡ table) }
    ensures own { IfOk result (λ opening. opening.own ≡ weighed_behind 0 (Good (owned_by (over (λ mount. mount.at) table) opening.place keys) (not_owned_by (over (λ mount. mount.at) table) opening.place keys))) }
    ensures none { IfOk result (λ opening. opening.files ≡ []) }
{
    let place = own_place(&table);
    let mut own = state_of(alloc, table.points(), place, Holding::Keys { keys })?;
    let sum = weigh_state(&mut own, 0);
    Ok(Opening {
        table,
        place,
        own,
        files: Vec::new(alloc),
        sum,
    })
}

/// The number in the table of the mount of this number among the others.
fn number_of(place: usize, i: usize) -> usize
    requires { i + 1 < 2 ^ 64 }
    ensures { result ≡ number_of place i }
{
    if i < place { i } else { i + 1 }
}

/// The number of the table's own mount.
fn own_place(table: &MountTable) -> usize
    requires { HasOwn table.now }
    ensures { slice_get table.now result ≡ Some own_mount }
{
    let points = table.points();
    for i in 0..points.len() {
        if is_own_point(&points[i]) {
            return i;
        }
    }
    unreachable!()
}

/// A mount with the state of its file, given what the file gave.
fn mounted_file<F: Formats>(
    alloc: Global,
    formats: &F,
    points: &[KeyName],
    i: usize,
    mount: &Mount,
    read: &FileRead,
) -> Result<MountedFile, Memory>
    requires { IsStrictlySortedBy name_cmp points.now }
    ensures mount { IfOk result (λ file. file.mount ≡ mount.now) }
    ensures state { IfOk result (λ file. (bytes : List ℕ) → IsWhole bytes read.now → IsState F.reads F.is_bad_at points.now i mount.now bytes file.state) }
    ensures short { IfOk result (λ file. HasShortTexts file.state) }
    ensures storable { IfOk result (λ file. CanBeWritten F.is_storable points.now i mount.now file.state) }
{
    let holding = read_holding(alloc, formats, &mount.at, mount.kind, read)?;
    let state = state_of(alloc, points, i, holding)?;
    Ok(MountedFile {
        mount: mount.copy()?,
        state,
    })
}

/// The state of a file: its keys are visible where the mount owns them.
fn state_of(
    alloc: Global,
    points: &[KeyName],
    i: usize,
    holding: Holding,
) -> Result<FileState, Memory>
    requires { IsStrictlySortedBy name_cmp points.now }
    ensures is { IfOk result (IsStateOf points.now i holding) }
    ensures short { IsShortHolding holding → IfOk result HasShortTexts }
{
    match holding {
        Holding::Keys { keys } => good_state(alloc, points, i, &keys),
        Holding::Bad { cause } => Ok(FileState::Bad { cause }),
    }
}
