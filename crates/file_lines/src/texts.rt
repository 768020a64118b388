//! The texts of a file: a key's name, and a value.
ghost use Rattle.std.specs.Prelude.{◌≡◌, ◌≢◌, ◌∷◌, IfOk, OnErr, OnOk, MatchOption};
ghost use Rattle.model_names.specs.Name.{Name};
ghost use Rattle.model_names.specs.Spells.{Spells};
ghost use Rattle.model_maps.specs.Entry.{IsValue};
ghost use Rattle.key_name.specs.declared.faults.NameFault.TheVariants.{Memory as OutOfMemory};

use key_meta::{LONGEST_VALUE, Memory};
use key_name::{KeyName, NameFault};
use std::alloc::{AllocError, Global};

/// The name that a text spells behind a slash.
pub fn name_of(alloc: Global, text: &[u8]) -> Result<Option<KeyName>, Memory>
    ensures { IfOk result (λ found. MatchOption found
        ((name : Name) → Spells (47 ∷ text.now) name → ⊥)
        (λ name. Spells (47 ∷ text.now) name)) }
{
    let Ok(text) = str::from_utf8(text) else {
        return Ok(None);
    };
    match KeyName::parse_relative(alloc, text) {
        Ok(name) => Ok(Some(name)),
        Err(fault) => {
            hand_on_memory(fault)?;
            Ok(None)
        }
    }
}

/// Every fault but want of memory is one of the text.
pub fn hand_on_memory(fault: NameFault) -> Result<(), Memory>
    ensures others { OnOk result (fault ≢ OutOfMemory) }
    ensures memory { OnErr result (fault ≡ OutOfMemory) }
{
    match fault {
        NameFault::Memory => Err(AllocError),
        _ => Ok(()),
    }
}

/// The value that bytes are.
pub fn value_of(bytes: &[u8]) -> Option<&str>
    ensures { MatchOption result
        (IsValue bytes.now → ⊥)
        (λ value. (value.now ≡ bytes.now) × IsValue bytes.now) }
{
    if bytes.len() > LONGEST_VALUE {
        return None;
    }
    str::from_utf8(bytes).ok()
}
