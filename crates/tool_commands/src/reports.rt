//! What a run tells, made whole before anything is put out or stored.
ghost use Rattle.std.specs.Prelude.{◌≡◌, IfOk, string_bytes};
ghost use Rattle.tool_commands.specs.Lines.{not_found, no_metadata};
ghost use Rattle.tool_commands.specs.Report.{found, met, told, warned};
ghost use Rattle.tool_commands.specs.StepView.{report_of};

use crate::status::{CONFLICTS, DONE, NOT_FOUND, Status, VIOLATIONS};
use kdb_text::{quoted, shown};
use key_meta::Memory;
use key_name::KeyName;
use std::alloc::Global;

/// A status, the bytes that are put on out, and the text on err.
#[derive(Drop)]
pub struct Report {
    pub status: Status,
    pub out: Vec<u8>,
    pub err: String,
}

/// The command was done, and puts this on out.
pub fn tell(alloc: Global, out: String) -> Report
    ensures told { report_of result ≡ told (string_bytes out) }
    ensures status { result.status ≡ 0 }
{
    Report {
        status: Status::new(DONE),
        out: out.into_bytes(),
        err: String::new(alloc),
    }
}

/// The command was done, and puts these bytes on out.
pub fn tell_bytes(alloc: Global, out: Vec<u8>) -> Report
    ensures told { report_of result ≡ told out.items }
    ensures status { result.status ≡ 0 }
{
    Report {
        status: Status::new(DONE),
        out,
        err: String::new(alloc),
    }
}

/// A merge met conflicts, and puts their lines on out.
pub fn tell_conflicts(alloc: Global, out: String) -> Report
    ensures met { report_of result ≡ met (string_bytes out) }
    ensures status { result.status ≡ 12 }
{
    Report {
        status: Status::new(CONFLICTS),
        out: out.into_bytes(),
        err: String::new(alloc),
    }
}

/// `validate` found violations, and puts their lines on out.
pub fn tell_violations(alloc: Global, out: String) -> Report
    ensures found { report_of result ≡ found (string_bytes out) }
    ensures status { result.status ≡ 13 }
{
    Report {
        status: Status::new(VIOLATIONS),
        out: out.into_bytes(),
        err: String::new(alloc),
    }
}

/// The command was refused, with one line on err.
pub fn warn(alloc: Global, status: u8, text: &str) -> Result<Report, Memory>
    ensures warned { IfOk result (λ report. report_of report ≡ warned status text.now) }
    ensures status { IfOk result (λ report. report.status ≡ status) }
{
    Ok(Report {
        status: Status::new(status),
        out: Vec::new(alloc),
        err: format!(in alloc; "kdb: {text}\n")?,
    })
}

pub fn warn_not_found(alloc: Global, name: &KeyName) -> Result<Report, Memory>
    ensures warned { IfOk result (λ report. report_of report ≡ warned 11 (not_found name.now)) }
    ensures status { IfOk result (λ report. report.status ≡ 11) }
{
    let name = shown(alloc, name)?;
    let text = format!(in alloc; "not found: {name}")?;
    warn(alloc, NOT_FOUND, text.as_str())
}

pub fn warn_no_metadata(alloc: Global, meta: &str) -> Result<Report, Memory>
    ensures warned { IfOk result (λ report. report_of report ≡ warned 11 (no_metadata meta.now)) }
    ensures status { IfOk result (λ report. report.status ≡ 11) }
{
    let meta = quoted(alloc, meta)?;
    let text = format!(in alloc; "no metadata: {meta}")?;
    warn(alloc, NOT_FOUND, text.as_str())
}
