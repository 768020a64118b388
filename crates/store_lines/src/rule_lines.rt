//! The lines of broken check rules.
ghost use Rattle.std.specs.Prelude.{◌≡◌, IfOk, string_bytes};
ghost use Rattle.store_lines.specs.Lines.{broken_rule, invalid};

use kdb_text::{quoted, shown};
use key_meta::Memory;
use model_specified::Violation;
use std::alloc::Global;

/// What refuses a set that would break a rule.
pub fn invalid(alloc: Global, violation: &Violation) -> Result<String, Memory>
    ensures { IfOk result (λ text. string_bytes text ≡ invalid violation.now) }
{
    let broken = broken_rule(alloc, violation)?;
    format!(in alloc; "C03200 invalid {broken}")
}

/// A key, the rule that it breaks by its number, and the text that is given of it.
pub fn broken_rule(alloc: Global, violation: &Violation) -> Result<String, Memory>
    ensures { IfOk result (λ text. string_bytes text ≡ broken_rule violation.now) }
{
    let key = shown(alloc, &violation.key)?;
    let rule = violation.rule;
    let given = quoted(alloc, violation.given.as_str())?;
    format!(in alloc; "{key} rule {rule} given {given}")
}
