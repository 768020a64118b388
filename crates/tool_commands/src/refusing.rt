//! What is told of words that ask for nothing.
ghost use Rattle.std.specs.Prelude.{◌≡◌, IfOk, string_bytes};
ghost use Rattle.tool_commands.specs.Report.{IsAnswered, warned};
ghost use Rattle.tool_commands.specs.StepView.{report_of};
ghost use Rattle.tool_words.specs.RequestView.{status_of, text_of, text_of_fault};
ghost use Rattle.tool_words.specs.Lines.{not_writable};

use crate::reports::{Report, warn};
use crate::status::{ARGUMENT_REFUSED, NO_COMMAND, OPTIONS_REFUSED};
use kdb_text::{quoted, shown, shown_text};
use key_meta::Memory;
use key_name::{KeyName, NameFault};
use std::alloc::Global;
use tool_words::Refusal;

/// What is told of a name that no file holds.
pub fn warn_of_name(alloc: Global, name: &KeyName) -> Result<Report, Memory>
    ensures { IfOk result (λ report. report_of report ≡ warned 2 (not_writable name.now)) }
{
    let name = shown(alloc, name)?;
    let text = format!(in alloc; "C01320 not writable: {name}")?;
    warn(alloc, ARGUMENT_REFUSED, text.as_str())
}

/// What is told of words that ask for nothing.
pub fn warn_of_words(alloc: Global, refusal: Refusal<'_>) -> Result<Report, Memory>
    ensures warned { IfOk result (λ report. report_of report ≡ warned (status_of refusal.entry) (text_of refusal.entry)) }
    ensures status { IfOk result (λ report. report.status ≡ status_of refusal.entry) }
    ensures own { IfOk result (λ report. IsAnswered report.status) }
{
    match refusal {
        Refusal::NoCommand => warn(alloc, NO_COMMAND, "no command"),
        Refusal::UnknownCommand(word) => {
            let word = shown_text(alloc, word)?;
            let text = format!(in alloc; "unknown command {word}")?;
            warn(alloc, NO_COMMAND, text.as_str())
        }
        Refusal::OptionsRefused => warn(alloc, OPTIONS_REFUSED, "options refused"),
        Refusal::NoName(fault) => {
            let text = text_of_fault(alloc, fault)?;
            warn(alloc, ARGUMENT_REFUSED, text.as_str())
        }
        Refusal::NoArgument(word) => {
            let word = quoted(alloc, word)?;
            let text = format!(in alloc; "C01320 argument: {word}")?;
            warn(alloc, ARGUMENT_REFUSED, text.as_str())
        }
    }
}

/// What is wrong with a word that is to be a name.
fn text_of_fault(alloc: Global, fault: NameFault) -> Result<String, Memory>
    ensures { IfOk result (λ text. string_bytes text ≡ text_of_fault fault) }
{
    match fault {
        NameFault::NoNamespace => format!(in alloc; "C01320 name: no namespace"),
        NameFault::UnknownNamespace => format!(in alloc; "C01320 name: unknown namespace"),
        NameFault::NoSlash => format!(in alloc; "C01320 name: no slash"),
        NameFault::BadEscape { at } => format!(in alloc; "C01320 name: bad escape at {at}"),
        NameFault::BadArray { at } => format!(in alloc; "C01320 name: bad array at {at}"),
        NameFault::Nul { at } => format!(in alloc; "C01320 name: nul at {at}"),
        NameFault::TooLong { bytes } => format!(in alloc; "C01320 name: too long {bytes}"),
        NameFault::Memory => format!(in alloc; "C01110 out of memory"),
    }
}
