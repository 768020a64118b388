//! What is made ready before a store is shared.
ghost use Rattle.std.specs.Prelude.{◌≡◌, ◌≤◌, IfOk, length, max};
ghost use Rattle.batch_script.specs.Rows.{most_sessions};
ghost use Rattle.batch_run.specs.Opening.{HasPlaces};

use crate::numbers::sessions_of;
use batch_script::Script;
use kdb_handle::Handle;
use key_meta::Memory;
use std::alloc::Global;

/// The numbers of a script's sessions, and room for their handles.
#[derive(Drop)]
pub struct Places {
    pub numbers: Vec<u32>,
    pub handles: Vec<Handle>,
}

/// Makes them.
pub fn places_of(alloc: Global, script: &Script) -> Result<Places, Memory>
    ensures { IfOk result (HasPlaces script.now) }
{
    let numbers = sessions_of(alloc, script)?;
    let handles = Vec::with_capacity(alloc, numbers.len())?;
    Ok(Places { numbers, handles })
}

/// How many seats a store has for some sessions. A store has one at least, which no handle takes where there is no
/// session.
pub fn seats_for(numbers: &[u32]) -> u32
    requires { length numbers.now ≤ most_sessions }
    ensures { result ≡ max 1 (length numbers.now) }
{
    if numbers.is_empty() {
        return 1;
    }
    numbers.len() as u32
}
