//! The names of the journal's files.
ghost use Rattle.std.specs.Prelude.{◌≡◌, IfOk};
ghost use Rattle.journal_codec.specs.Entry.{journal_name, journal2_name};

use kdb_outside::{FileName, Memory};
use std::alloc::Global;

/// The name of the file that the former program kept its journal in. Err where memory is out.
pub fn name_of_journal(alloc: Global) -> Result<FileName, Memory>
    ensures { IfOk result (λ name. name ≡ journal_name) }
{
    match FileName::new(alloc, "journal")? {
        Some(name) => Ok(name),
        None => unreachable!(),
    }
}

/// The name of the file that this program keeps its journal in. Err where memory is out.
pub fn name_of_journal2(alloc: Global) -> Result<FileName, Memory>
    ensures { IfOk result (λ name. name ≡ journal2_name) }
{
    match FileName::new(alloc, "journal2")? {
        Some(name) => Ok(name),
        None => unreachable!(),
    }
}
