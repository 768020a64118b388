//! Names that are known to be names.
ghost use Rattle.std.specs.Prelude.{◌≡◌, IfOk, None};
ghost use Rattle.kdb_outside.specs.FileName.{IsFileName};
ghost use Rattle.key_name.specs.Children as names;
ghost use Rattle.key_name.specs.Children.{child_refusal};
ghost use Rattle.mount_table.specs.Places.{mountpoints, entry_name};

use crate::own::own_point;
use kdb_outside::FileName;
use key_meta::Memory;
use key_name::{KeyName, NameFault};
use std::alloc::{AllocError, Global};

/// The name below which all entries stand.
pub fn mountpoints(alloc: Global) -> Result<KeyName, Memory>
    ensures { IfOk result (λ name. name ≡ mountpoints) }
{
    let own = own_point(alloc)?;
    child_of(&own, "mountpoints")
}

/// The name of an entry's keys, by its text.
pub fn entry_name(alloc: Global, text: &str) -> Result<KeyName, Memory>
    requires { child_refusal mountpoints text.now ≡ None }
    ensures { IfOk result (λ name. name ≡ entry_name text.now) }
{
    let above = mountpoints(alloc)?;
    child_of(&above, text)
}

/// A name with one more part, which nothing keeps from being that one.
pub fn child_of(name: &KeyName, part: &str) -> Result<KeyName, Memory>
    requires { child_refusal name.now part.now ≡ None }
    ensures { IfOk result (λ child. child ≡ names.child_of name.now part.now) }
{
    match name.child(part) {
        Ok(child) => Ok(child),
        Err(NameFault::Memory) => Err(AllocError),
        Err(_) => unreachable!(),
    }
}

/// The name of a file.
pub fn file_name(alloc: Global, text: &str) -> Result<FileName, Memory>
    requires { IsFileName text.now }
    ensures { IfOk result (λ file. file ≡ text.now) }
{
    match FileName::new(alloc, text)? {
        Some(file) => Ok(file),
        None => unreachable!(),
    }
}
