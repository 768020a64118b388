//! Keys that are looked up.
ghost use Rattle.std.specs.Prelude.{◌≡◌, IfOk};
ghost use Rattle.tool_commands.specs.Commands.Looking.{looked_up};

use key_meta::Memory;
use key_name::KeyName;
use key_set::KeySet;
use spec_cascade::{Found, lookup_specified};

/// What is found for a name in what keys come to under their specifications.
pub fn look_up(name: &KeyName, keys: &KeySet) -> Result<Option<Found>, Memory>
    ensures { IfOk result (λ found. found ≡ looked_up keys.now name.now) }
{
    lookup_specified(keys, name)
}
