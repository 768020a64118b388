//! The lines of broken check rules.
ghost use Rattle.std.specs.Prelude.{◌≡◌, ◌++◌, [], ◌∷◌, IfOk, OnOk, string_bytes};
ghost use Rattle.std.specs.List.{flat_map};
ghost use Rattle.tool_commands.specs.Lines.{line_of_violation};
ghost use Rattle.tool_commands.specs.Report.{IsOneOf, checked};
ghost use Rattle.tool_commands.specs.StepView.{report_of};

use crate::reports::{Report, tell, tell_violations};
use key_meta::Memory;
use model_specified::Violation;
use std::alloc::Global;
use store_lines::broken_rule;

/// `validate`: a line for each violation, with a status of its own where there is one.
pub fn tell_checked(alloc: Global, violations: &[Violation]) -> Result<Report, Memory>
    ensures told { IfOk result (λ report. report_of report ≡ checked violations.now) }
    ensures status { IfOk result (λ report. IsOneOf (0 ∷ 13 ∷ []) report.status) }
{
    let lines = lines_of_violations(alloc, violations)?;
    if violations.is_empty() {
        Ok(tell(alloc, lines))
    } else {
        Ok(tell_violations(alloc, lines))
    }
}

fn lines_of_violations(alloc: Global, violations: &[Violation]) -> Result<String, Memory>
    ensures { IfOk result (λ lines. string_bytes lines ≡ flat_map line_of_violation violations.now) }
{
    let mut lines = String::new(alloc);
    for violation in violations {
        push_line_of_violation(alloc, &mut lines, violation)?;
    }
    Ok(lines)
}

fn push_line_of_violation(
    alloc: Global,
    lines: &mut String,
    violation: &Violation,
) -> Result<(), Memory>
    ensures { OnOk result (string_bytes lines.new ≡ string_bytes lines.old ++ line_of_violation violation.now) }
{
    let broken = broken_rule(alloc, violation)?;
    let line = format!(in alloc; "{broken}\n")?;
    lines.push_str(&line)
}
