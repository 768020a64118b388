//! The work that a command line asks for: the words and the input are read, and the store is asked.
ghost use Rattle.tool_single.specs.Carried.{CarriesOut};
ghost use Rattle.std.specs.Prelude.{◌≡◌};
ghost use Rattle.tool_single.specs.Stops.{or_memory};
ghost use Rattle.tool_words.specs.Rows.{request};

use crate::answers::{Ended, Stop};
use crate::importing::import;
use crate::questions::answer_question;
use kdb_outside::{Disk, Source};
use key_meta::{Memory, Text};
use regex_check::Patterns;
use std::alloc::Global;
use tool_commands::{Report, warn_of_name, warn_of_words};
use tool_words::{Request, lend_words, read_words};

/// Reads the words of a command line, and does what they ask for.
pub fn carry_out<S: Source, D: Disk, P: Patterns + Drop>(
    alloc: Global,
    words: &[Text],
    input: &mut S,
    disk: D,
    patterns: P,
) -> Ended<D, P>
    ensures { CarriesOut S.Source D.Disk P.Patterns (request words.now) input.old input.new disk patterns result }
{
    let Ok(lent) = lend_words(alloc, words) else {
        return Ended {
            answer: Err(Stop::Memory),
            disk,
            patterns,
        };
    };
    match read_words(alloc, &lent) {
        Ok(Request::Asks(question)) => answer_question(alloc, question, disk, patterns),
        Ok(Request::Imports { name, kind }) => { import(alloc, name, kind, input, disk, patterns) }
        Ok(Request::Refuses(refusal)) => {
            without_store(warn_of_words(alloc, refusal), disk, patterns)
        }
        Ok(Request::Bars(name)) => { without_store(warn_of_name(alloc, &name), disk, patterns) }
        Err(_) => Ended {
            answer: Err(Stop::Memory),
            disk,
            patterns,
        },
    }
}

/// What is told without the store, which is left alone, and so is the matcher.
pub fn without_store<D: Disk, P: Patterns + Drop>(
    report: Result<Report, Memory>,
    disk: D,
    patterns: P,
) -> Ended<D, P>
    ensures answer { result.answer ≡ or_memory report }
    ensures disk { result.disk ≡ disk }
    ensures patterns { result.patterns ≡ patterns }
{
    match report {
        Ok(report) => Ended {
            answer: Ok(report),
            disk,
            patterns,
        },
        Err(_) => Ended {
            answer: Err(Stop::Memory),
            disk,
            patterns,
        },
    }
}
