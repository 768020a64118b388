//! Names that are known without being read.
ghost use Rattle.std.specs.Prelude.{◌≡◌};
ghost use Rattle.tool_commands.specs.Commands.{every_key};

use key_name::{KeyName, Namespace};
use std::alloc::Global;

/// The name of all keys.
pub fn every_key(alloc: Global) -> KeyName
    ensures { result ≡ every_key }
{
    KeyName::root(alloc, Namespace::Cascading)
}
