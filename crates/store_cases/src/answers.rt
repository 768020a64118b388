//! How answers are printed: as a script prints them, one a line.

use kdb_text::shown;
use key_meta::{List, Memory};
use key_name::KeyName;
use key_set::KeySet;
use model_specified::Violation;
use mounted_files::GetFault;
use std::alloc::Global;
use store_core::{CommitFault, Done, Got, OpenFault};
use store_play::{Answer, Flushes, Skip};
use store_verdict::PrepareFault;

/// The longest value that is printed. Of a longer one the number of its bytes is.
const LONGEST: usize = 40;

/// The answers of a run, each on a line.
pub fn lines_of(
    alloc: Global,
    answers: &Result<List<Answer>, OpenFault>,
) -> Result<String, Memory> {
    let mut text = String::new(alloc);
    match answers {
        Ok(answers) => {
            for answer in answers.as_slice() {
                push_line(&mut text, &answer_line(alloc, answer)?)?;
            }
        }
        Err(fault) => push_line(&mut text, &open_line(alloc, fault)?)?,
    }
    Ok(text)
}

/// How the flushes between the events went.
pub fn push_flushes(alloc: Global, text: &mut String, told: Flushes) -> Result<(), Memory> {
    let Flushes {
        wrote,
        idle,
        failed,
    } = told;
    text.push_str(format!(in alloc; "  flushed {wrote} idle {idle} failed {failed}\n")?.as_str())
}

fn push_line(text: &mut String, line: &String) -> Result<(), Memory> {
    text.push_str("  ")?;
    text.push_str(line.as_str())?;
    text.push_str("\n")
}

fn answer_line(alloc: Global, answer: &Answer) -> Result<String, Memory> {
    match answer {
        Answer::Got(Ok(got)) => got_line(alloc, got),
        Answer::Got(Err(fault)) => get_line(alloc, fault),
        Answer::Prepared(Ok(())) => String::from_str(alloc, "ready"),
        Answer::Prepared(Err(fault)) => prepare_line(alloc, fault),
        Answer::Committed(Ok(done)) => done_line(alloc, done),
        Answer::Committed(Err(fault)) => commit_line(alloc, fault),
        Answer::Skipped(why) => String::from_str(alloc, skip_line(*why)),
    }
}

fn open_line(alloc: Global, fault: &OpenFault) -> Result<String, Memory> {
    match fault {
        OpenFault::DiskFault => String::from_str(alloc, "not opened: disk-fault"),
        OpenFault::BadJournal { at } => format!(in alloc; "not opened: bad-journal {at}"),
        OpenFault::UnknownVersion { version } => {
            format!(in alloc; "not opened: journal-version {version}")
        }
        OpenFault::BadTable { .. } => String::from_str(alloc, "not opened: bad-table"),
        OpenFault::TooLong { bytes } => format!(in alloc; "not opened: too-long {bytes}"),
        OpenFault::BadFile { line } => format!(in alloc; "not opened: bad-file {line}"),
        OpenFault::Memory => String::from_str(alloc, "not opened: memory"),
    }
}

/// The front, how many keys there are, and each with its value.
fn got_line(alloc: Global, got: &Got) -> Result<String, Memory> {
    let front = got.front;
    let count = got.keys.len();
    let mut line = format!(in alloc; "got {front} {count}")?;
    push_keys(alloc, &mut line, &got.keys)?;
    Ok(line)
}

fn push_keys(alloc: Global, line: &mut String, keys: &KeySet) -> Result<(), Memory> {
    for (name, entry) in keys.iter() {
        line.push_str(" ")?;
        line.push_str(shown(alloc, name)?.as_str())?;
        line.push_str("=")?;
        push_value(alloc, line, entry.value.as_str())?;
    }
    Ok(())
}

fn push_value(alloc: Global, line: &mut String, value: &str) -> Result<(), Memory> {
    if value.len() <= LONGEST {
        return line.push_str(value);
    }
    let bytes = value.len();
    line.push_str(format!(in alloc; "({bytes} bytes)")?.as_str())
}

fn get_line(alloc: Global, fault: &GetFault) -> Result<String, Memory> {
    match fault {
        GetFault::BadFile { mount, line } => told(alloc, "bad-file", mount, *line),
        GetFault::TooLong { mount, bytes } => told(alloc, "too-long", mount, *bytes),
        GetFault::TooHeavy { mount, weight } => told(alloc, "too-heavy", mount, *weight),
        GetFault::Memory => String::from_str(alloc, "memory"),
    }
}

/// A word, a mount and a number.
fn told(alloc: Global, word: &str, mount: &KeyName, number: u64) -> Result<String, Memory> {
    let mount = shown(alloc, mount)?;
    format!(in alloc; "{word} {mount} {number}")
}

fn prepare_line(alloc: Global, fault: &PrepareFault) -> Result<String, Memory> {
    match fault {
        PrepareFault::NotFetched { mount } => {
            let mount = shown(alloc, mount)?;
            format!(in alloc; "refused not-fetched {mount}")
        }
        PrepareFault::ValueTooLong { key, bytes } => told(
            alloc,
            "refused value-too-long",
            key,
            *bytes,
        ),
        PrepareFault::NotStorable { mount, key } => {
            let mount = shown(alloc, mount)?;
            let key = shown(alloc, key)?;
            format!(in alloc; "refused not-storable {mount} {key}")
        }
        PrepareFault::FileTooLarge { mount, bytes } => {
            told(alloc, "refused file-too-large", mount, *bytes)
        }
        PrepareFault::BadTable { .. } => String::from_str(alloc, "refused bad-table"),
        PrepareFault::Memory => String::from_str(alloc, "memory"),
    }
}

fn done_line(alloc: Global, done: &Done) -> Result<String, Memory> {
    match done {
        Done::Committed { number, left_aside } => {
            format!(in alloc; "commit {number} aside {left_aside}")
        }
        Done::Same { front, left_aside } => format!(in alloc; "same {front} aside {left_aside}"),
    }
}

fn commit_line(alloc: Global, fault: &CommitFault) -> Result<String, Memory> {
    match fault {
        CommitFault::Conflict { mount, by, front } => {
            let mount = shown(alloc, mount)?;
            format!(in alloc; "conflict {mount} by {by} front {front}")
        }
        CommitFault::FileTooLarge {
            mount,
            bytes,
            front,
        } => {
            let mount = shown(alloc, mount)?;
            format!(in alloc; "file-too-large {mount} {bytes} front {front}")
        }
        CommitFault::Invalid { violation, front } => invalid_line(alloc, violation, *front),
        CommitFault::DatabaseFull { weight, front } => {
            format!(in alloc; "database-full {weight} front {front}")
        }
        CommitFault::HistoryFull { weight, front } => {
            format!(in alloc; "history-full {weight} front {front}")
        }
        CommitFault::DiskFault { front } => format!(in alloc; "disk-fault front {front}"),
        CommitFault::Memory => String::from_str(alloc, "memory"),
    }
}

/// The key, the rule that it breaks, and the text that is given.
fn invalid_line(alloc: Global, violation: &Violation, front: u64) -> Result<String, Memory> {
    let key = shown(alloc, &violation.key)?;
    let rule = violation.rule;
    let mut line = format!(in alloc; "invalid {key} rule {rule} given ")?;
    push_value(alloc, &mut line, violation.given.as_str())?;
    line.push_str(format!(in alloc; " front {front}")?.as_str())?;
    Ok(line)
}

fn skip_line(why: Skip) -> &'static str {
    match why {
        Skip::NoHandle => "skipped: no handle",
        Skip::NoPlace => "skipped: no place",
        Skip::NoSet => "skipped: no set",
        Skip::NotAccepted => "skipped: not accepted",
    }
}
