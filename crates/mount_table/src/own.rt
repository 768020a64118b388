//! Where the table's own keys are.
ghost use Rattle.std.specs.Prelude.{◌≡◌, IfOk};
ghost use Rattle.model_names.specs.Below.{is_at_or_below};
ghost use Rattle.model_names.specs.Order.{name_eq};
ghost use Rattle.mount_table.specs.Points.{own_point};
ghost use Rattle.mount_table.specs.Table.{own_mount};

use crate::children::{child_of, file_name};
use kdb_outside::FileName;
use key_meta::Memory;
use key_name::KeyName;
use model_names::Namespace;
use std::alloc::Global;

/// The mountpoint of the table's own keys, `system:/elektra`.
pub fn own_point(alloc: Global) -> Result<KeyName, Memory>
    ensures { IfOk result (λ point. point ≡ own_point) }
{
    let root = KeyName::root(alloc, Namespace::System);
    child_of(&root, "elektra")
}

/// The file of the table's own keys, `elektra.ecf`.
pub fn own_file(alloc: Global) -> Result<FileName, Memory>
    ensures { IfOk result (λ file. file ≡ own_mount.file) }
{
    file_name(alloc, "elektra.ecf")
}

/// Whether a name is the mountpoint of the table's own keys.
pub fn is_own_point(name: &KeyName) -> bool
    ensures { result ≡ name_eq name.now own_point }
{
    name.namespace() == Namespace::System && name.len() == 1 && name.part(0) == Some("elektra")
}

/// Whether a name is where the table's own keys are.
pub fn is_own(name: &KeyName) -> bool
    ensures { result ≡ is_at_or_below own_point name.now }
{
    name.namespace() == Namespace::System && name.part(0) == Some("elektra")
}
