//! The commands on the values of keys.
ghost use Rattle.std.specs.Prelude.{◌≡◌, ℕ, List, ◌++◌, ◌∷◌, [], IfOk, string_bytes};
ghost use Rattle.std.specs.Option.{option_map};
ghost use Rattle.key_set.specs.EntryView.{entry_of};
ghost use Rattle.tool_commands.specs.StepView.{seen_step};
ghost use Rattle.tool_commands.specs.Report.{told};
ghost use Rattle.tool_commands.specs.Step.{Tells, TellsEnd};
ghost use Rattle.tool_commands.specs.Commands.Values.{got, set_in, printed_set};
ghost use Rattle.tool_commands.specs.Lines.{created, set_to};

use crate::reports::{tell, warn_not_found};
use crate::steps::Step;
use kdb_text::{quoted, shown};
use key_edits::put_value;
use key_meta::{Memory, Text};
use key_name::KeyName;
use key_set::{Entry, KeySet};
use spec_cascade::Found;
use std::alloc::Global;

/// `get`: the value of what was found for a name, and a line feed.
pub fn get(alloc: Global, name: &KeyName, found: Option<Found>) -> Result<Step, Memory>
    ensures step { IfOk result (λ step. seen_step step ≡ Tells (got name.now found)) }
    ensures status { IfOk result (λ step. TellsEnd (11 ∷ []) (seen_step step)) }
{
    match found {
        Some(found) => tell_value(alloc, &found.value),
        None => Ok(Step::Tells(warn_not_found(alloc, name)?)),
    }
}

fn tell_value(alloc: Global, value: &Text) -> Result<Step, Memory>
    ensures step { IfOk result (λ step. seen_step step ≡ Tells (told (value.now ++ 10 ∷ []))) }
    ensures status { (own : List ℕ) → IfOk result (λ step. TellsEnd (own) (seen_step step)) }
{
    let value = value.as_str();
    let out = format!(in alloc; "{value}\n")?;
    Ok(Step::Tells(tell(alloc, out)))
}

/// `set`: the key gets a value and keeps its metadata.
pub fn set(alloc: Global, name: &KeyName, value: &str, keys: KeySet) -> Result<Step, Memory>
    ensures step { IfOk result (λ step. seen_step step ≡ set_in keys name.now value.now) }
    ensures status { IfOk result (λ step. TellsEnd ([]) (seen_step step)) }
{
    let out = printed_set(alloc, keys.lookup(name), name, value)?;
    let mut keys = keys;
    put_value(alloc, &mut keys, name, value)?;
    Ok(Step::Sets { keys, out })
}

/// What `set` prints, by what the key had.
fn printed_set(
    alloc: Global,
    former: Option<&Entry>,
    name: &KeyName,
    value: &str,
) -> Result<String, Memory>
    ensures { IfOk result (λ out. string_bytes out ≡ printed_set (option_map (λ entry. entry_of entry.now) former.entry) name.now value.now) }
{
    match former {
        Some(_) => set_to(alloc, value),
        None => created(alloc, name, value),
    }
}

/// What `set` prints of a key that wasn't there.
fn created(alloc: Global, name: &KeyName, value: &str) -> Result<String, Memory>
    ensures { IfOk result (λ out. string_bytes out ≡ created name.now value.now) }
{
    let name = shown(alloc, name)?;
    let value = quoted(alloc, value)?;
    format!(in alloc; "Create a new key {name} with string {value}\n")
}

/// What `set` prints of a key that was there.
fn set_to(alloc: Global, value: &str) -> Result<String, Memory>
    ensures { IfOk result (λ out. string_bytes out ≡ set_to value.now) }
{
    let value = quoted(alloc, value)?;
    format!(in alloc; "Set string to {value}\n")
}
