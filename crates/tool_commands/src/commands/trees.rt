//! The commands on a key alone or on all keys at or below a name.
ghost use Rattle.std.specs.Prelude.{◌≡◌, ℕ, List, ◌++◌, [], ◌∷◌, if◌then◌else◌, filter, true, None, All, IfOk, OnOk, string_bytes};
ghost use Rattle.std.specs.FinMap as map;
ghost use Rattle.std.specs.List.{flat_map};
ghost use Rattle.model_names.specs.Below.{is_at_or_below};
ghost use Rattle.key_set.specs.EntryView.{entry_of};
ghost use Rattle.tool_commands.specs.StepView.{seen_step};
ghost use Rattle.tool_commands.specs.Step.{Tells, TellsEnd};
ghost use Rattle.tool_commands.specs.Commands.Trees.{sources, others, removed, is_listed, listed, staying, replaced, brought, bytes_over, first_too_long, with_brought, brought_over, brought_in};
ghost use Rattle.tool_commands.specs.Lines.{line_of_name};

use crate::refusing::warn_of_words;
use crate::reports::{tell, warn_not_found};
use crate::steps::{Step, set_silently};
use kdb_text::shown;
use key_meta::Memory;
use key_name::{KeyName, NameFault, Namespace};
use key_set::{Entry, KeySet};
use std::alloc::{AllocError, Global};
use tool_words::{Extent, Refusal, Way};

/// `rm`: the keys are taken out, and nothing is printed.
pub fn remove(alloc: Global, name: &KeyName, extent: Extent, keys: KeySet) -> Result<Step, Memory>
    ensures step { IfOk result (λ step. seen_step step ≡ removed name.now (sources extent name.now keys) (others extent name.now keys)) }
    ensures status { IfOk result (λ step. TellsEnd (11 ∷ []) (seen_step step)) }
{
    let mut keys = keys;
    let taken = take_out(alloc, &mut keys, name, extent)?;
    if taken.len() == 0 {
        return Ok(Step::Tells(warn_not_found(alloc, name)?));
    }
    Ok(set_silently(alloc, keys))
}

/// Takes out the keys that a command is for, and answers them.
fn take_out(
    alloc: Global,
    keys: &mut KeySet,
    name: &KeyName,
    extent: Extent,
) -> Result<KeySet, Memory>
    ensures taken { IfOk result (λ taken. taken ≡ sources extent name.now keys.old) }
    ensures left { OnOk result (keys.new ≡ others extent name.now keys.old) }
{
    match extent {
        Extent::Alone => take_one(alloc, keys, name),
        Extent::WithBelow => keys.cut(name),
    }
}

/// Takes out a key alone, where it is there.
fn take_one(alloc: Global, keys: &mut KeySet, name: &KeyName) -> Result<KeySet, Memory>
    ensures taken { IfOk result (λ taken. taken ≡ sources Extent.Alone name.now keys.old) }
    ensures left { OnOk result (keys.new ≡ others Extent.Alone name.now keys.old) }
{
    let mut taken = KeySet::new(alloc);
    if let Some(entry) = keys.remove(name)? {
        let _ = taken.append(name.copy()?, entry)?;
    }
    Ok(taken)
}

/// The keys that a command is for, in memory of their own.
fn sources(alloc: Global, keys: &KeySet, name: &KeyName, extent: Extent) -> Result<KeySet, Memory>
    ensures { IfOk result (λ found. found ≡ sources extent name.now keys.now) }
{
    match extent {
        Extent::Alone => source(alloc, keys, name),
        Extent::WithBelow => keys.below(name),
    }
}

/// A key alone, where it is there.
fn source(alloc: Global, keys: &KeySet, name: &KeyName) -> Result<KeySet, Memory>
    ensures { IfOk result (λ found. found ≡ sources Extent.Alone name.now keys.now) }
{
    let mut found = KeySet::new(alloc);
    if let Some(entry) = keys.lookup(name) {
        let _ = found.append(name.copy()?, entry.copy()?)?;
    }
    Ok(found)
}

/// The keys that are brought to other names. Those that move are taken out.
fn take(
    alloc: Global,
    keys: &mut KeySet,
    name: &KeyName,
    way: Way,
    extent: Extent,
) -> Result<KeySet, Memory>
    ensures taken { IfOk result (λ taken. taken ≡ sources extent name.now keys.old) }
    ensures staying { OnOk result (keys.new ≡ staying way extent name.now keys.old) }
{
    match way {
        Way::Copies => sources(alloc, keys, name, extent),
        Way::Moves => take_out(alloc, keys, name, extent),
    }
}

/// `cp` and `mv`: the keys get other names, and nothing is printed.
pub fn bring(
    alloc: Global,
    name: &KeyName,
    way: Way,
    extent: Extent,
    to: &KeyName,
    keys: KeySet,
) -> Result<Step, Memory>
    ensures step { IfOk result (λ step. seen_step step ≡ brought_in keys name.now way extent to.now) }
    ensures status { IfOk result (λ step. TellsEnd (2 ∷ 11 ∷ []) (seen_step step)) }
{
    let mut keys = keys;
    let taken = take(alloc, &mut keys, name, way, extent)?;
    if taken.len() == 0 {
        return Ok(Step::Tells(warn_not_found(alloc, name)?));
    }
    set_over(alloc, name, to, &taken, keys)
}

/// Sets keys over others, under the names to which they are brought.
pub fn set_over(
    alloc: Global,
    from: &KeyName,
    to: &KeyName,
    taken: &KeySet,
    keys: KeySet,
) -> Result<Step, Memory>
    requires { All (λ key. is_at_or_below from.now key.0 ≡ true) (map.entries taken.now) }
    ensures step { IfOk result (λ step. seen_step step ≡ brought_over from.now to.now (map.entries taken.now) keys) }
    ensures status { (own : List ℕ) → IfOk result (λ step. TellsEnd (2 ∷ own) (seen_step step)) }
{
    let mut keys = keys;
    match set_all(alloc, from, to, taken, &mut keys)? {
        Some(bytes) => {
            let refusal = Refusal::NoName(NameFault::TooLong { bytes });
            Ok(Step::Tells(warn_of_words(alloc, refusal)?))
        }
        None => Ok(set_silently(alloc, keys)),
    }
}

/// Sets keys under the names to which they are brought, where none is too long. Answers the bytes of the first that is.
fn set_all(
    alloc: Global,
    from: &KeyName,
    to: &KeyName,
    taken: &KeySet,
    keys: &mut KeySet,
) -> Result<Option<usize>, Memory>
    requires { All (λ key. is_at_or_below from.now key.0 ≡ true) (map.entries taken.now) }
    ensures long { IfOk result (λ found. found ≡ first_too_long from.now to.now (map.entries taken.now)) }
    ensures set { IfOk result (λ found. found ≡ None → keys.new ≡ with_brought from.now to.now keys.old (map.entries taken.now)) }
{
    // The brought keys come in name order, so a set of their own takes each at its end.
    let mut moved = KeySet::new(alloc);
    if let Some(bytes) = bring_all(from, to, taken, &mut moved)? {
        return Ok(Some(bytes));
    }
    keys.append_all(moved)?;
    Ok(None)
}

/// Appends keys under the names to which they are brought, up to the first name that is too long. Answers its bytes.
fn bring_all(
    from: &KeyName,
    to: &KeyName,
    taken: &KeySet,
    keys: &mut KeySet,
) -> Result<Option<usize>, Memory>
    requires { All (λ key. is_at_or_below from.now key.0 ≡ true) (map.entries taken.now) }
    ensures long { IfOk result (λ found. found ≡ first_too_long from.now to.now (map.entries taken.now)) }
    ensures set { IfOk result (λ found. found ≡ None → keys.new ≡ with_brought from.now to.now keys.old (map.entries taken.now)) }
{
    for (name, entry) in taken.iter() {
        if let Some(bytes) = set_one(from, to, name, entry, keys)? {
            return Ok(Some(bytes));
        }
    }
    Ok(None)
}

/// Sets a key under the name to which it is brought. Answers the name's bytes where it is too long.
fn set_one(
    from: &KeyName,
    to: &KeyName,
    name: &KeyName,
    entry: &Entry,
    keys: &mut KeySet,
) -> Result<Option<usize>, Memory>
    requires { is_at_or_below from.now name.now ≡ true }
    ensures long { IfOk result (λ found. found ≡ bytes_over (brought from.now to.now name.now)) }
    ensures set { IfOk result (λ found. found ≡ None → keys.new ≡ map.insert keys.old (brought from.now to.now name.now) (entry_of entry.now)) }
{
    let Some(way) = name.relative_to(from)? else {
        unreachable!()
    };
    match to.join(&way) {
        Ok(name) => {
            let _ = keys.append(name, entry.copy()?)?;
            Ok(None)
        }
        Err(NameFault::TooLong { bytes }) => Ok(Some(bytes)),
        Err(_) => Err(AllocError),
    }
}

/// `import`: other keys stand in the place of all at or below a name, and nothing is printed.
pub fn replace(alloc: Global, name: &KeyName, others: KeySet, keys: KeySet) -> Result<Step, Memory>
    ensures step { IfOk result (λ step. seen_step step ≡ replaced name.now others keys) }
    ensures status { IfOk result (λ step. TellsEnd ([]) (seen_step step)) }
{
    let mut keys = keys;
    let _taken = keys.cut(name)?;
    keys.append_all(others)?;
    Ok(set_silently(alloc, keys))
}

/// `ls`: a line for each key at or below a name.
pub fn list(alloc: Global, name: &KeyName, keys: &KeySet) -> Result<Step, Memory>
    ensures step { IfOk result (λ step. seen_step step ≡ Tells (listed keys.now name.now)) }
    ensures status { IfOk result (λ step. TellsEnd ([]) (seen_step step)) }
{
    let lines = lines_below(alloc, name, keys)?;
    Ok(Step::Tells(tell(alloc, lines)))
}

/// The lines of the keys at or below a name.
fn lines_below(alloc: Global, above: &KeyName, keys: &KeySet) -> Result<String, Memory>
    ensures { IfOk result (λ lines. string_bytes lines ≡ flat_map (λ key. line_of_name key.0) (filter (λ key. is_listed above.now key.0) (map.entries keys.now))) }
{
    let mut lines = String::new(alloc);
    for (name, _) in keys.iter() {
        push_if_listed(alloc, &mut lines, name, above)?;
    }
    Ok(lines)
}

/// Adds the line of a name, where another one lists it.
fn push_if_listed(
    alloc: Global,
    lines: &mut String,
    name: &KeyName,
    above: &KeyName,
) -> Result<(), Memory>
    ensures { OnOk result (string_bytes lines.new ≡ string_bytes lines.old ++ (if is_listed above.now name.now then line_of_name name.now else [])) }
{
    if is_listed(name, above)? {
        push_line_of_name(alloc, lines, name)?;
    }
    Ok(())
}

/// Whether a name is the same as another one or below it. A cascading name lists its path in every namespace.
fn is_listed(name: &KeyName, above: &KeyName) -> Result<bool, Memory>
    ensures { IfOk result (λ is. is ≡ is_listed above.now name.now) }
{
    if name.is_below_or_same(above) {
        return Ok(true);
    }
    let path = name.with_namespace(Namespace::Cascading)?;
    Ok(path.is_below_or_same(above))
}

/// Adds a name as it is shown, with a line feed.
pub fn push_line_of_name(alloc: Global, lines: &mut String, name: &KeyName) -> Result<(), Memory>
    ensures { OnOk result (string_bytes lines.new ≡ string_bytes lines.old ++ line_of_name name.now) }
{
    let text = shown(alloc, name)?;
    lines.push_str(&text)?;
    lines.push('\n')
}
