//! Names of files by their texts.

use kdb_outside::FileName;
use std::alloc::Global;
use std::test::Fail;

pub(crate) fn name(alloc: Global, text: &str) -> Result<FileName, Fail> {
    Ok(FileName::new(alloc, text)?.ok_or("it is a name")?)
}
