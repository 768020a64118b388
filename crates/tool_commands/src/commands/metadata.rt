//! The commands on the metadata of keys.
ghost use Rattle.std.specs.Prelude.{◌≡◌, ◌++◌, ◌∷◌, [], IfOk, OnOk, string_bytes};
ghost use Rattle.std.specs.FinMap as map;
ghost use Rattle.std.specs.List.{flat_map};
ghost use Rattle.tool_commands.specs.Report.{IsOneOf};
ghost use Rattle.tool_commands.specs.StepView.{report_of, seen_step};
ghost use Rattle.tool_commands.specs.Step.{Tells, TellsEnd};
ghost use Rattle.tool_commands.specs.Commands.Metadata.{text_got, meta_got, meta_set_in, meta_listed};

use crate::reports::{Report, tell, warn_no_metadata, warn_not_found};
use crate::steps::{Step, set_silently};
use key_edits::put_meta;
use key_meta::{Memory, Meta};
use key_name::KeyName;
use key_set::KeySet;
use spec_cascade::Found;
use std::alloc::Global;
use tool_words::MetaName;

/// `meta-get`: a metadata text of what was found for a name, and a line feed.
pub fn get_meta(
    alloc: Global,
    name: &KeyName,
    meta: &str,
    found: Option<Found>,
) -> Result<Step, Memory>
    ensures step { IfOk result (λ step. seen_step step ≡ Tells (meta_got name.now meta.now found)) }
    ensures status { IfOk result (λ step. TellsEnd (11 ∷ []) (seen_step step)) }
{
    match found {
        Some(found) => Ok(Step::Tells(get_text(alloc, meta, &found.meta)?)),
        None => Ok(Step::Tells(warn_not_found(alloc, name)?)),
    }
}

/// A text of metadata and a line feed.
fn get_text(alloc: Global, meta: &str, metadata: &Meta) -> Result<Report, Memory>
    ensures text { IfOk result (λ report. report_of report ≡ text_got meta.now (map.get metadata.now meta.now)) }
    ensures status { IfOk result (λ report. IsOneOf (0 ∷ 11 ∷ []) report.status) }
{
    match metadata.get(meta) {
        Some(text) => {
            let out = format!(in alloc; "{text}\n")?;
            Ok(tell(alloc, out))
        }
        None => warn_no_metadata(alloc, meta),
    }
}

/// `meta-set`: the key gets a metadata text and keeps its value. A missing key is made with the empty value.
pub fn set_meta(
    alloc: Global,
    name: &KeyName,
    meta: &MetaName<'_>,
    text: &str,
    keys: KeySet,
) -> Result<Step, Memory>
    ensures step { IfOk result (λ step. seen_step step ≡ meta_set_in keys name.now meta.now text.now) }
    ensures status { IfOk result (λ step. TellsEnd ([]) (seen_step step)) }
{
    let mut keys = keys;
    put_meta(alloc, &mut keys, name, meta.as_str(), text)?;
    Ok(set_silently(alloc, keys))
}

/// `meta-ls`: a line for each metadata name of what was found for a name.
pub fn list_meta(alloc: Global, name: &KeyName, found: Option<Found>) -> Result<Step, Memory>
    ensures step { IfOk result (λ step. seen_step step ≡ Tells (meta_listed name.now found)) }
    ensures status { IfOk result (λ step. TellsEnd (11 ∷ []) (seen_step step)) }
{
    match found {
        Some(found) => {
            let lines = lines_of_meta(alloc, &found.meta)?;
            Ok(Step::Tells(tell(alloc, lines)))
        }
        None => Ok(Step::Tells(warn_not_found(alloc, name)?)),
    }
}

/// The names of metadata, each with a line feed.
fn lines_of_meta(alloc: Global, metadata: &Meta) -> Result<String, Memory>
    ensures { IfOk result (λ lines. string_bytes lines ≡ flat_map (λ item. item.0 ++ 10 ∷ []) (map.entries metadata.now)) }
{
    let mut lines = String::new(alloc);
    for (name, _) in metadata.iter() {
        push_line(&mut lines, name)?;
    }
    Ok(lines)
}

fn push_line(lines: &mut String, text: &str) -> Result<(), Memory>
    ensures { OnOk result (string_bytes lines.new ≡ string_bytes lines.old ++ (text.now ++ 10 ∷ [])) }
{
    lines.push_str(text)?;
    lines.push('\n')
}
