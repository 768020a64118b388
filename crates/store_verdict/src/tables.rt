//! Keys of the mount table that make none.
ghost use Rattle.std.specs.Prelude.{◌≡◌, MatchResult, None};
ghost use Rattle.general_words.specs.Searches.{first_some};
ghost use Rattle.set_split.specs.Seen.{numbered};
ghost use Rattle.store_verdict.specs.Filing.{IsTold, table_at};

use crate::PrepareFault;
use mount_table::{MountTable, TableFault, is_own_point};
use set_split::Part;
use std::alloc::Global;

/// The keys that are wanted for the table's own mount are refused where they make no table.
pub fn refuse_bad_table(
    alloc: Global,
    table: &MountTable,
    touched: &[Part],
) -> Result<(), PrepareFault>
    ensures { MatchResult result (λ _. first_some (table_at table.now) (numbered touched.now) ≡ None) (IsTold table.now (first_some (table_at table.now) (numbered touched.now))) }
{
    for part in touched {
        refuse_if_bad_table(alloc, table, part)?;
    }
    Ok(())
}

/// The keys that are wanted for a mount are refused where it is the table's own and they make no table.
fn refuse_if_bad_table(alloc: Global, table: &MountTable, part: &Part) -> Result<(), PrepareFault>
    ensures { MatchResult result (λ _. table_at table.now (part.now.mount, part.now.keys) ≡ None) (IsTold table.now (table_at table.now (part.now.mount, part.now.keys))) }
{
    let Some(mount) = table.mount(part.mount) else {
        return Ok(());
    };
    if !is_own_point(&mount.at) {
        return Ok(());
    }
    match MountTable::read_table(alloc, &part.keys) {
        Ok(_) => Ok(()),
        Err(TableFault::Memory) => Err(PrepareFault::Memory),
        Err(fault) => Err(PrepareFault::BadTable { fault }),
    }
}
