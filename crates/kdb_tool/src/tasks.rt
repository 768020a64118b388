//! What a batch is asked for: its words and its input are read, before the store is looked at.
ghost use Rattle.std.specs.Prelude.{◌≡◌, ◌≢◌, ◌≤◌, ℕ, List, Some, false, Err, IsOk, IfOk, MatchResult, OnOk};
ghost use Rattle.kdb_outside.specs.Faults.{HasRisen};
ghost use Rattle.kdb_tool.specs.Scripts.{FailsToRead, IsGiven, LeavesInput, most_taken, taken, takes_words};
ghost use Rattle.kdb_tool.specs.Tasks.{CanBePlayed, IsTask, IsTaskOf, warning_of};
ghost use Rattle.tool_commands.specs.Report.{IsAnswered};
ghost use Rattle.tool_commands.specs.StepView.{report_of};
ghost use Rattle.tool_single.specs.Input.{TakesAll, TakesFront};
ghost use Rattle.tool_single.specs.declared.answers.Stop.TheVariants.{Memory as OutOfMemory};

use batch_run::what_bytes_read_as_can_be_played;
use batch_script::{Script, ScriptFault, is_too_long, parse_script};
use kdb_outside::Source;
use key_meta::{Memory, Text};
use std::alloc::{AllocError, Global};
use tool_commands::{REFUSED, Report, warn, warn_of_words};
use tool_single::{Stop, take_all};
use tool_words::{Refusal, are_none, lend_words};

/// The most bytes that are taken of the input: one more than a script may have.
const MOST_TAKEN: usize = 4_194_305;

/// Why there is no script to play.
#[derive(Clone, Copy)]
pub enum NoScript {
    OptionsRefused,
    TooLong,
    /// The first line that has no meaning, counted from 1.
    BadLine { line: u64 },
}

/// What a batch is asked for: to play a script, or to refuse what there is in its place.
#[derive(Drop)]
pub enum Task {
    Play(Script),
    Refuse(NoScript),
}

/// Reads the words, and then the input.
pub fn read_task<S: Source>(alloc: Global, words: &[Text], input: &mut S) -> Result<Task, Stop>
    ensures told { (given : List ℕ) → IsGiven (takes_words words.now) (S.left input.old) given
        → IfOk result (IsTask words.now given) }
    ensures words { takes_words words.now ≡ false
        → MatchResult result (λ task. task ≡ Task.Refuse NoScript.OptionsRefused) (λ stop. stop ≡ OutOfMemory) }
    ensures playable { IfOk result CanBePlayed }
    ensures input { LeavesInput S.Source (takes_words words.now) (IsOk result) input.old input.new }
    ensures read { result ≡ Err Stop.ReadFault
        → FailsToRead (takes_words words.now) (S.faults input.old) (S.faults input.new) }
    ensures own { result ≢ Err Stop.DiskFault }
    ensures later { S.faults input.old ≤ S.faults input.new }
{
    if !takes_words(alloc, words)? {
        return Ok(Task::Refuse(NoScript::OptionsRefused));
    }
    read_input(alloc, input)
}

/// Whether the words behind the first are such as every command takes.
fn takes_words(alloc: Global, words: &[Text]) -> Result<bool, Memory>
    ensures { IfOk result (λ takes. takes ≡ takes_words words.now) }
{
    let lent = lend_words(alloc, words)?;
    match lent.split_first() {
        Some((_, behind)) => are_none(alloc, behind),
        None => are_none(alloc, &lent),
    }
}

/// Takes the input, and reads it.
fn read_input<S: Source>(alloc: Global, input: &mut S) -> Result<Task, Stop>
    ensures told { (bytes : List ℕ) → S.left input.old ≡ Some bytes → IfOk result (IsTaskOf (taken bytes)) }
    ensures playable { IfOk result CanBePlayed }
    ensures front { (bytes : List ℕ) → S.left input.old ≡ Some bytes → TakesFront most_taken bytes (S.left input.new) }
    ensures all { (bytes : List ℕ) → S.left input.old ≡ Some bytes
        → OnOk result (TakesAll most_taken bytes (S.left input.new)) }
    ensures cause { result ≡ Err Stop.ReadFault → HasRisen (S.faults input.old) (S.faults input.new) }
    ensures own { result ≢ Err Stop.DiskFault }
    ensures later { S.faults input.old ≤ S.faults input.new }
{
    let bytes = take_all(alloc, input, MOST_TAKEN)?;
    Ok(read_bytes(alloc, &bytes)?)
}

/// Reads what was taken.
fn read_bytes(alloc: Global, bytes: &[u8]) -> Result<Task, Memory>
    ensures told { IfOk result (IsTaskOf bytes.now) }
    ensures playable { IfOk result CanBePlayed }
{
    if is_too_long(bytes) {
        return Ok(Task::Refuse(NoScript::TooLong));
    }
    what_bytes_read_as_can_be_played();
    match parse_script(alloc, bytes) {
        Ok(script) => Ok(Task::Play(script)),
        Err(ScriptFault::BadLine { line }) => Ok(Task::Refuse(NoScript::BadLine { line })),
        Err(ScriptFault::Memory) => Err(AllocError),
    }
}

/// What is told where there is no script to play.
pub fn warn_of_script(alloc: Global, why: NoScript) -> Result<Report, Memory>
    ensures warned { IfOk result (λ report. report_of report ≡ warning_of why) }
    ensures own { IfOk result (λ report. IsAnswered report.status) }
{
    match why {
        NoScript::OptionsRefused => warn_of_words(alloc, Refusal::OptionsRefused),
        NoScript::TooLong => warn(alloc, REFUSED, "C01100 script-too-long"),
        NoScript::BadLine { line } => {
            let text = format!(in alloc; "C03100 bad-line {line}")?;
            warn(alloc, REFUSED, text.as_str())
        }
    }
}
