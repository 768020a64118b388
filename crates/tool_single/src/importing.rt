//! The answer to an import: its input is read before the files are looked at.
ghost use Rattle.tool_single.specs.Carried.{CarriesOut};
ghost use Rattle.std.specs.Prelude.{◌≡◌, ◌≢◌, ◌≤◌, ℕ, List, Some, Err, IfOk, OnOk};
ghost use Rattle.all_formats.specs.Meanings.{Reads, IsBadAt};
ghost use Rattle.kdb_outside.specs.Faults.{HasRisen};
ghost use Rattle.mounted_files.specs.Faults.{fault_of};
ghost use Rattle.mounted_files.specs.Holding.{IsHolding};
ghost use Rattle.tool_single.specs.Answers.{line_of_get};
ghost use Rattle.tool_single.specs.Input.{most_taken, taken, TakesAll, TakesFront};
ghost use Rattle.tool_words.specs.Request.{Imports};
ghost use Rattle.tool_commands.specs.Report.{warned};
ghost use Rattle.tool_commands.specs.StepView.{report_of};

use crate::answering::refuse_get;
use crate::answers::{Ended, Stop};
use crate::questions::answer_question;
use crate::reading::read_input;
use crate::work::without_store;
use all_formats::AllFormats;
use kdb_outside::{Disk, Kind, Source};
use key_meta::Memory;
use key_name::KeyName;
use mounted_files::{Cause, Holding, fault_of, read_holding};
use regex_check::Patterns;
use std::alloc::Global;
use tool_commands::Report;
use tool_words::{Action, Question};

/// The answer to an import. Its input is read before the store is opened.
pub fn import<S: Source, D: Disk, P: Patterns + Drop>(
    alloc: Global,
    name: KeyName,
    kind: Kind,
    input: &mut S,
    disk: D,
    patterns: P,
) -> Ended<D, P>
    ensures { CarriesOut S.Source D.Disk P.Patterns (Imports name kind) input.old input.new disk patterns result }
{
    match take_keys(alloc, &name, kind, input) {
        Ok(Holding::Keys { keys }) => {
            let action = Action::Replace(keys);
            answer_question(alloc, Question::On { name, action }, disk, patterns)
        }
        Ok(Holding::Bad { cause }) => {
            without_store(refuse_input(alloc, &name, cause), disk, patterns)
        }
        Err(stop) => Ended {
            answer: Err(stop),
            disk,
            patterns,
        },
    }
}

/// What an input holds as a file at a name would.
fn take_keys<S: Source>(
    alloc: Global,
    name: &KeyName,
    kind: Kind,
    input: &mut S,
) -> Result<Holding, Stop>
    ensures told { (bytes : List ℕ) → S.left input.old ≡ Some bytes
        → IfOk result (IsHolding Reads IsBadAt name.now kind (taken bytes)) }
    ensures front { (bytes : List ℕ) → S.left input.old ≡ Some bytes → TakesFront most_taken bytes (S.left input.new) }
    ensures all { (bytes : List ℕ) → S.left input.old ≡ Some bytes
        → OnOk result (TakesAll most_taken bytes (S.left input.new)) }
    ensures read { result ≡ Err Stop.ReadFault → HasRisen (S.faults input.old) (S.faults input.new) }
    ensures own { result ≢ Err Stop.DiskFault }
    ensures later { S.faults input.old ≤ S.faults input.new }
{
    let read = read_input(alloc, input)?;
    Ok(read_holding(alloc, &AllFormats, name, kind, &read)?)
}

/// The refusal of an input that holds no keys.
fn refuse_input(alloc: Global, name: &KeyName, cause: Cause) -> Result<Report, Memory>
    ensures told { IfOk result (λ report. report_of report ≡ warned 5 (line_of_get (fault_of name.now cause))) }
    ensures status { IfOk result (λ report. report.status ≡ 5) }
{
    refuse_get(alloc, fault_of(name, cause)?)
}
