//! Many runs of single commands, one after the other.
ghost use Rattle.std.specs.Prelude.{◌≡◌, ℕ, List, Option, None, true};
ghost use Rattle.intent_journal.specs.States.{IsCalm};
ghost use Rattle.journal_codec.specs.declared.files.FileText.{FileText as Item};
ghost use Rattle.kdb_outside.specs.Images.{Image};
ghost use Rattle.kdb_outside.specs.SinkChange.{change_of};
ghost use Rattle.tool_single.specs.Answer.{Texts};
ghost use Rattle.tool_single.specs.Input.{IsInput};
ghost use Rattle.tool_words.specs.Rows.{request};
ghost use Rattle.tool_single.specs.Runs.{Ending, OneRun, HasRan, AreRuns, AreDecided, IsHistory, AreFound};

use crate::tool::run_one;
use kdb_outside::{Disk, Sink, Source};
use key_meta::Text;
use regex_check::Patterns;
use std::alloc::Global;
use tool_commands::Status;

/// Carries out a single command as `run_one` does, and says of it what `runs_have_one_history` asks of each of many
/// runs.
pub fn one_run<S: Source, K: Sink, E: Sink, D: Disk, P: Patterns + Drop>(
    alloc: Global,
    words: &[Text],
    input: &mut S,
    out: &mut K,
    err: &mut E,
    disk: D,
    patterns: P,
) -> (Status, D, P)
    ensures { D.tells disk ≡ true → (given : List ℕ) (ending : Ending)
        → IsInput (request words.now) (S.left input.old) given
        → HasRan D.Disk (record {
          words = words.now;
          input = given;
          found = disk;
          left = result.1;
          status = result.0;
          out = change_of K.Sink out.old out.new;
          err = change_of E.Sink err.old err.new;
          refusals_before = P.refusals patterns;
          refusals = P.refusals result.2;
          ending = ending;
        }) }
{
    run_one(alloc, words, input, out, err, disk, patterns)
}

/// Runs of single commands have one history, whatever they carry out and wherever crashes come between them or cut them
/// off: there is one list of what they have stored, in their order, so that each run worked its answer out over the
/// first files with all that was stored before it, and the last files are those with all of it. A run that was
/// acknowledged has stored all that its answer stores; any other has stored all of it, or nothing. The run of a batch
/// is none of these, since it may store many commits. Nothing runs here: the function stands for its contract.
pub fn runs_have_one_history<D: Disk>(disk: &D)
    ensures one { (files : Image) (runs : List (OneRun D)) (last : D)
        → IsCalm (D.seen disk.now) (D.may_leave disk.now) files None
        → AreRuns D.Disk disk.now runs last → AreDecided D.Disk runs last
        → (stored : List Texts) × IsHistory D.Disk files runs stored last }
    // A crash may tear a gate of the journal, so that it is neither closed nor open. Then what one run that was cut off
    // stores is in doubt: the runs behind it find it whole or not at all, until one stores something, and nothing else
    // is in doubt.
    ensures torn { (files : Image) (doubt : Option (List Item)) (runs : List (OneRun D)) (last : D)
        → IsCalm (D.seen disk.now) (D.may_leave disk.now) files doubt → AreRuns D.Disk disk.now runs last
        → AreFound D.Disk files doubt runs last }
{}
