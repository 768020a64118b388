//! The mount table, which says which file holds the keys below which name.
ghost use Rattle.std.specs.Prelude.{◌≡◌, IfOk, length, slice_get, map as over};
ghost use Rattle.std.specs.FinMap as map;
ghost use Rattle.std.specs.Option.{option_copied};
ghost use Rattle.general_words.specs.Texts.{text_cmp};
ghost use Rattle.model_names.specs.Order.{name_cmp};
ghost use Rattle.mount_table.specs.Answers.{Gives};
ghost use Rattle.mount_table.specs.Table.{ArePoints, by_point, table_from, table_of};

use crate::defaults::remaining;
use crate::entries::{MountEntry, entries_of};
use crate::reading::mounts_from;
use crate::{Mount, TableFault};
use key_meta::{Memory, Text};
use key_name::KeyName;
use key_set::KeySet;
use sorted_map::SortedMap;
use std::alloc::Global;
use std::marker::Model;

/// The most mounts of a table.
const MOST_MOUNTS: usize = 64;

/// 1 to 64 mounts, numbered from 0 in the order of their mountpoints. Seen as the list of them.
#[derive(Drop)]
pub struct MountTable {
    points: Vec<KeyName>,
    mounts: Vec<Mount>,
}

impl Model for MountTable {
    ghost use Rattle.std.specs.Prelude.{List};
    ghost use Rattle.mount_table.specs.declared.mounts.Mount.{Mount};

    ghost Value = { List Mount };

    ghost use Rattle.mount_table.specs.TableView.{IsTable};

    ghost view = { λ t. t.mounts.items };

    ghost invariant = { IsTable };
}

impl MountTable {
    /// The table that some keys make, or what is wrong with their first faulty entry.
    ///
    /// Each distinct part directly below `system:/elektra/mountpoints` is an entry: the part is its mountpoint, the
    /// value of its child `path` its file, that of its child `plugin` its format, which is dump where that child is
    /// missing, and that of its child `conflicts` how its conflicts are counted: `keys` by key, and `backend` by its
    /// backend, as where that child is missing. The default mounts are `spec:/` on `spec.ecf`, `dir:/` on `dir.ecf`,
    /// `user:/` on `user.ecf` and `system:/` on `system.ecf`, each unless an entry has its mountpoint, and
    /// `system:/elektra` on `elektra.ecf`.
    pub fn read_table(alloc: Global, keys: &KeySet) -> Result<MountTable, TableFault>
        ensures { Gives result (table_of keys.now) }
    {
        let entries = entries_of(alloc, keys)?;
        table_from(alloc, &entries)
    }

    /// How many mounts there are: 1 to 64.
    pub fn len(&self) -> usize
        ensures len { result ≡ length self.now }
        ensures points { ArePoints (over (λ mount. mount.at) self.now) }
    {
        self.mounts.len()
    }

    /// A mount by its number.
    pub fn mount(&self, i: usize) -> Option<&Mount>
        ensures { option_copied result ≡ slice_get self.now i }
    {
        self.mounts.get(i)
    }

    /// The mountpoints, in their order.
    pub fn points(&self) -> &[KeyName]
        ensures points { result.now ≡ over (λ mount. mount.at) self.now }
        ensures are_points { ArePoints result.now }
    {
        &self.points
    }

    /// The same table again, in memory of its own.
    pub fn copy(&self) -> Result<MountTable, Memory>
        ensures { IfOk result (λ copied. copied ≡ self.now) }
    {
        let alloc = *self.points.allocator();
        Ok(MountTable {
            points: copy_of_points(alloc, &self.points)?,
            mounts: copy_of_mounts(alloc, &self.mounts)?,
        })
    }
}

/// The table that some entries make.
pub fn table_from(
    alloc: Global,
    entries: &SortedMap<Text, MountEntry>,
) -> Result<MountTable, TableFault>
    ensures { Gives result (table_from (map.from_sorted {R = text_cmp} entries.now)) }
{
    let mounts = remaining(alloc, entries)?;
    let mounts = mounts_from(alloc, mounts, entries.entries())?;
    let table = by_point(alloc, &mounts)?;
    if table.len() > MOST_MOUNTS {
        return Err(TableFault::TooMany {
            count: table.len() as u64,
        });
    }
    Ok(MountTable {
        points: points_of(alloc, table.entries())?,
        mounts: mounts_in_order(alloc, table.entries())?,
    })
}

/// Mounts in the order of their mountpoints.
fn by_point(alloc: Global, mounts: &[Mount]) -> Result<SortedMap<KeyName, Mount>, Memory>
    ensures { IfOk result (λ table. map.from_sorted {R = name_cmp} table ≡ by_point mounts.now) }
{
    let mut table = SortedMap::new(alloc);
    for mount in mounts {
        table.insert(mount.at.copy()?, mount.copy()?)?;
    }
    Ok(table)
}

fn points_of(alloc: Global, table: &[(KeyName, Mount)]) -> Result<Vec<KeyName>, Memory>
    ensures { IfOk result (λ points. points.items ≡ over (λ entry. entry.0) table.now) }
{
    let mut points = Vec::with_capacity(alloc, table.len())?;
    for entry in table {
        points.push(entry.0.copy()?)?;
    }
    Ok(points)
}

fn mounts_in_order(alloc: Global, table: &[(KeyName, Mount)]) -> Result<Vec<Mount>, Memory>
    ensures { IfOk result (λ mounts. mounts.items ≡ over (λ entry. entry.1) table.now) }
{
    let mut mounts = Vec::with_capacity(alloc, table.len())?;
    for entry in table {
        mounts.push(entry.1.copy()?)?;
    }
    Ok(mounts)
}

fn copy_of_points(alloc: Global, points: &[KeyName]) -> Result<Vec<KeyName>, Memory>
    ensures { IfOk result (λ copied. copied.items ≡ points.now) }
{
    let mut copied = Vec::with_capacity(alloc, points.len())?;
    for point in points {
        copied.push(point.copy()?)?;
    }
    Ok(copied)
}

fn copy_of_mounts(alloc: Global, mounts: &[Mount]) -> Result<Vec<Mount>, Memory>
    ensures { IfOk result (λ copied. copied.items ≡ mounts.now) }
{
    let mut copied = Vec::with_capacity(alloc, mounts.len())?;
    for mount in mounts {
        copied.push(mount.copy()?)?;
    }
    Ok(copied)
}
