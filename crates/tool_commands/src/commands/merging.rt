//! `merge`: three trees of keys become one.
ghost use Rattle.std.specs.Prelude.{◌≡◌, ◌++◌, [], ◌∷◌, true, None, All, IfOk, string_bytes};
ghost use Rattle.std.specs.FinMap as map;
ghost use Rattle.std.specs.List.{flat_map};
ghost use Rattle.general_words.specs.Searches.{first_some};
ghost use Rattle.key_name.specs.Joining.{joined};
ghost use Rattle.model_maps.specs.KeyMap.{not_below};
ghost use Rattle.model_names.specs.Below.{is_at_or_below};
ghost use Rattle.model_names.specs.declared.namespaces.Namespace.TheVariants.{Cascading};
ghost use Rattle.tool_commands.specs.Commands.Merging.{conflicts_told, merged_in, way_root};
ghost use Rattle.tool_commands.specs.Commands.Trees.{brought_over, bytes_over};
ghost use Rattle.tool_commands.specs.Lines.{line_of_conflict};
ghost use Rattle.tool_commands.specs.Step.{TellsEnd};
ghost use Rattle.tool_commands.specs.StepView.{seen_step};

use crate::commands::trees::{push_line_of_name, set_over};
use crate::places::every_key;
use crate::refusing::warn_of_words;
use crate::reports::tell_conflicts;
use crate::steps::Step;
use key_merge::{Merge3Fault, Strategy, merge3};
use key_meta::Memory;
use key_name::{KeyName, NameFault};
use key_set::KeySet;
use std::alloc::{AllocError, Global};
use tool_words::Refusal;

/// `merge`: the keys at or below three names are merged, and stand in the place of all at or below a fourth.
pub fn merge(
    alloc: Global,
    into: &KeyName,
    strategy: Strategy,
    our: &KeyName,
    their: &KeyName,
    base: &KeyName,
    keys: KeySet,
) -> Result<Step, Memory>
    ensures step { IfOk result (λ step. seen_step step ≡ merged_in keys strategy our.now their.now base.now into.now) }
    ensures status { IfOk result (λ step. TellsEnd (2 ∷ 12 ∷ []) (seen_step step)) }
{
    let our = keys.relative_to(alloc, our)?;
    let their = keys.relative_to(alloc, their)?;
    let base = keys.relative_to(alloc, base)?;
    match merge3(&base, &our, &their, strategy) {
        Ok(merged) => set_merged(alloc, into, &merged, keys),
        Err(Merge3Fault::Conflicts { names }) => tell_all(alloc, into, names.as_slice()),
        Err(Merge3Fault::Memory) => Err(AllocError),
    }
}

/// Sets the merged keys in the place of all at or below a name.
fn set_merged(alloc: Global, into: &KeyName, merged: &KeySet, keys: KeySet) -> Result<Step, Memory>
    requires { All (λ key. is_at_or_below way_root key.0 ≡ true) (map.entries merged.now) }
    ensures step { IfOk result (λ step. seen_step step ≡ brought_over way_root into.now (map.entries merged.now) (not_below into.now keys)) }
    ensures status { IfOk result (λ step. TellsEnd (2 ∷ 12 ∷ []) (seen_step step)) }
{
    let mut keys = keys;
    let _gone = keys.cut(into)?;
    set_over(alloc, &every_key(alloc), into, merged, keys)
}

/// Tells all conflicts, or that a whole name would be too long.
fn tell_all(alloc: Global, into: &KeyName, names: &[KeyName]) -> Result<Step, Memory>
    requires { All (λ name. name.namespace ≡ Cascading) names.now }
    ensures step { IfOk result (λ step. seen_step step ≡ conflicts_told into.now names.now) }
    ensures status { IfOk result (λ step. TellsEnd (2 ∷ 12 ∷ []) (seen_step step)) }
{
    let mut lines = String::new(alloc);
    match push_all(alloc, into, names, &mut lines)? {
        Some(bytes) => {
            let refusal = Refusal::NoName(NameFault::TooLong { bytes });
            Ok(Step::Tells(warn_of_words(alloc, refusal)?))
        }
        None => Ok(Step::Tells(tell_conflicts(alloc, lines))),
    }
}

/// Adds the lines of conflicts at whole names, up to the first that is too long. Answers its bytes.
fn push_all(
    alloc: Global,
    into: &KeyName,
    names: &[KeyName],
    lines: &mut String,
) -> Result<Option<usize>, Memory>
    requires { All (λ name. name.namespace ≡ Cascading) names.now }
    ensures long { IfOk result (λ found. found ≡ first_some (λ name. bytes_over (joined into.now name)) names.now) }
    ensures lines { IfOk result (λ found. found ≡ None → string_bytes lines.new ≡ string_bytes lines.old ++ flat_map (λ name. line_of_conflict (joined into.now name)) names.now) }
{
    for name in names {
        if let Some(bytes) = push_one(alloc, into, name, lines)? {
            return Ok(Some(bytes));
        }
    }
    Ok(None)
}

/// Adds the line of a conflict at a whole name. Answers the name's bytes where it is too long.
fn push_one(
    alloc: Global,
    into: &KeyName,
    name: &KeyName,
    lines: &mut String,
) -> Result<Option<usize>, Memory>
    requires { name.now.namespace ≡ Cascading }
    ensures long { IfOk result (λ found. found ≡ bytes_over (joined into.now name.now)) }
    ensures line { IfOk result (λ found. found ≡ None → string_bytes lines.new ≡ string_bytes lines.old ++ line_of_conflict (joined into.now name.now)) }
{
    match into.join(name) {
        Ok(whole) => {
            lines.push_str("conflict ")?;
            push_line_of_name(alloc, lines, &whole)?;
            Ok(None)
        }
        Err(NameFault::TooLong { bytes }) => Ok(Some(bytes)),
        Err(_) => Err(AllocError),
    }
}
