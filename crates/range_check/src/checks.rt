//! The check of a value under its metadata.
ghost use Rattle.std.specs.Prelude.{IfOk};
ghost use Rattle.model_rules.specs.Rules.{BreaksRange, Tells};

use crate::ranges::{intervals_of, is_in_one};
use key_meta::{Memory, Meta, Text};
use model_rules::Broken;
use std::alloc::Global;

/// The breach of rule 3 or 4, if there is one: `check/range` is no range, or the value is no number in it.
pub fn check_range(alloc: Global, value: &str, meta: &Meta) -> Result<Option<Broken>, Memory>
    ensures { IfOk result (Tells (BreaksRange value.now meta.now)) }
{
    let Some(text) = meta.get("check/range") else {
        return Ok(None);
    };
    match intervals_of(alloc, text)? {
        None => {
            let given = Text::new(alloc, text)?;
            Ok(Some(Broken { rule: 3, given }))
        }
        Some(intervals) => {
            if is_in_one(intervals.as_slice(), value) {
                return Ok(None);
            }
            let given = Text::new(alloc, value)?;
            Ok(Some(Broken { rule: 4, given }))
        }
    }
}
