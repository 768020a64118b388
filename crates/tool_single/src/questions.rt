//! A question to the store: it is opened, answers, and is closed.
ghost use Rattle.tool_single.specs.Carried.{PutsQuestion};
ghost use Rattle.std.specs.Prelude.{◌≡◌, ◌≢◌, IfOk, OnOk, Err, string_bytes};
ghost use Rattle.tool_single.specs.Lines.{line_of_store};
ghost use Rattle.store_core.specs.declared.faults.OpenFault.TheVariants.{DiskFault as OfDisk, Memory as OfMemory};
ghost use Rattle.tool_commands.specs.Report.{warned};
ghost use Rattle.tool_commands.specs.StepView.{report_of};
ghost use Rattle.tool_words.specs.Request.{NamesFiles};
ghost use Rattle.tool_words.specs.RequestView.{question_of};

use crate::answering::answer_in;
use crate::answers::{Ended, Stop};
use all_formats::AllFormats;
use kdb_outside::Disk;
use key_meta::Memory;
use regex_check::Patterns;
use std::alloc::{AllocError, Global};
use store_core::{Closed, OpenFault, OpenRefused, Opened, open_store};
use store_lines::{bad_file, bad_journal, bad_table, too_long, unknown_journal};
use tool_commands::{REFUSED, Report, own_point, warn};
use tool_words::Question;

/// The answer to a question over the store of a disk. What it stores is stored by then.
pub fn answer_question<D: Disk, P: Patterns + Drop>(
    alloc: Global,
    question: Question<'_>,
    disk: D,
    patterns: P,
) -> Ended<D, P>
    requires { NamesFiles (question_of question) }
    ensures { PutsQuestion D.Disk P.Patterns (question_of question.entry) disk patterns result }
{
    match open_store(alloc, disk, AllFormats, patterns) {
        Ok(opened) => {
            let Opened { plan, core } = opened;
            let mut core = core;
            let answer = answer_in(alloc, &plan, &mut core, question);
            let Closed { disk, patterns, .. } = core.close();
            let disk = given_back(disk);
            Ended {
                answer,
                disk,
                patterns,
            }
        }
        Err(
            OpenRefused {
                fault,
                disk,
                patterns,
            },
        ) => {
            let disk = given_back(disk);
            Ended {
                answer: refuse_opening(alloc, &fault),
                disk,
                patterns,
            }
        }
    }
}

/// Says that a disk is done with, before the answer is put out: a reader of the output that waits for another run then
/// keeps none waiting.
pub fn given_back<D: Disk>(disk: D) -> D
    ensures { result ≡ disk }
{
    let mut disk = disk;
    disk.release();
    disk
}

/// What is told where the store isn't opened.
pub fn refuse_opening(alloc: Global, fault: &OpenFault) -> Result<Report, Stop>
    ensures told { IfOk result (λ report. report_of report ≡ warned 5 (line_of_store fault.now)) }
    ensures status { IfOk result (λ report. report.status ≡ 5) }
    ensures answered { OnOk result ((fault.now ≢ OfDisk) × (fault.now ≢ OfMemory)) }
    ensures cause { result ≡ Err Stop.DiskFault → fault.now ≡ OfDisk }
    ensures input { result ≢ Err Stop.ReadFault }
{
    if let OpenFault::DiskFault = fault {
        return Err(Stop::DiskFault);
    }
    let text = line_of_store(alloc, fault)?;
    Ok(warn(alloc, REFUSED, &text)?)
}

/// The line of what refuses an opening. Want of memory has none, nor has a fault of the disk.
fn line_of_store(alloc: Global, fault: &OpenFault) -> Result<String, Memory>
    requires { fault.now ≢ OfDisk }
    ensures text { IfOk result (λ text. string_bytes text ≡ line_of_store fault.now) }
    ensures memory { OnOk result (fault.now ≢ OfMemory) }
{
    match fault {
        OpenFault::TooLong { bytes } => too_long(alloc, &own_point(alloc)?, *bytes),
        OpenFault::BadFile { line } => bad_file(alloc, &own_point(alloc)?, *line),
        OpenFault::BadTable { fault } => bad_table(alloc, fault),
        OpenFault::BadJournal { at } => bad_journal(alloc, *at),
        OpenFault::UnknownVersion { version } => unknown_journal(alloc, *version),
        OpenFault::Memory => Err(AllocError),
        OpenFault::DiskFault => unreachable!(),
    }
}
