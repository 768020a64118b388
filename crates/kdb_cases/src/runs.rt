//! Runs of the tool over a disk in memory, and calls of the disk itself.

use crate::calls;
use crate::gates::CountingGate;
use crate::notation::{bytes_of, shown, text_of};
use crate::ran::{Streams, ended, run_over};
use crate::starts::Start;
use crate::stops::rows_of;
use disk_memory::MemDisk;
use kdb_outside::{FileName, MemSink, MemSource, Source};
use key_meta::{Memory, Text};
use std::alloc::Global;
use std::sync::Wait;
use std::thread::Threads;

/// A disk, what it begins with, what the last run put on out, and how many steps passed its gate.
#[derive(Drop)]
pub struct Runs {
    alloc: Global,
    start: Start,
    disk: Option<MemDisk>,
    given: Vec<u8>,
    input: Vec<u8>,
    input_failing: Option<u64>,
    left: Vec<u8>,
    out_failing: Option<u64>,
    err_failing: Option<u64>,
    out: Vec<u8>,
    passes: u64,
}

impl Runs {
    pub fn new(alloc: Global) -> Runs {
        Runs {
            alloc,
            start: Start::new(alloc),
            disk: None,
            given: Vec::new(alloc),
            input: Vec::new(alloc),
            input_failing: None,
            left: Vec::new(alloc),
            out_failing: None,
            err_failing: None,
            out: Vec::new(alloc),
            passes: 0,
        }
    }

    /// What comes of a line, if it is one of a disk.
    pub fn answer_to<R: Threads + Wait + Sync>(
        &mut self,
        threads: &R,
        word: &str,
        rest: &str,
    ) -> Result<Option<String>, Memory> {
        match word {
            "disk" => *self = Runs::new(self.alloc),
            "file" => self.add_file(rest)?,
            "input" => self.input = bytes_of(self.alloc, rest)?,
            "fail" => self.fail(rest)?,
            "stop" => self.start.stop(rest.parse().ok()),
            "crash" => self.crash(rest.parse().unwrap_or(0))?,
            "run" => return Ok(Some(self.run(threads, rest)?)),
            "stops" | "faults" => {
                let words = words_of(self.alloc, rest)?;
                let rows = rows_of(threads, self.alloc, &self.start, &words, word == "faults")?;
                return Ok(Some(rows));
            }
            "write" | "cut" | "sync" | "length" | "read" | "whole" => {
                return Ok(Some(self.call(word, rest)?));
            }
            _ => return self.look(word, rest),
        }
        Ok(Some(String::new(self.alloc)))
    }

    /// What is to be seen of the disk, or of the last run: what it put on out, and its gate.
    fn look(&mut self, word: &str, rest: &str) -> Result<Option<String>, Memory> {
        match word {
            "calls" => {
                let disk = self.disk()?;
                let calls = disk.calls();
                self.disk = Some(disk);
                Ok(Some(format!(in self.alloc; "  {calls}\n")?))
            }
            "show" => Ok(Some(self.show(rest)?)),
            "left" => {
                let left = shown(self.alloc, self.left.as_slice())?;
                Ok(Some(format!(in self.alloc; "  {left}\n")?))
            }
            "kept" => Ok(Some(self.kept(rest)?)),
            "passes" => Ok(Some(format!(in self.alloc; "  {}\n", self.passes)?)),
            "out" => {
                let wanted = bytes_of(self.alloc, rest)?;
                let answer = yes_or_no(wanted.as_slice() == self.out.as_slice());
                Ok(Some(String::from_str(self.alloc, answer)?))
            }
            _ => Ok(None),
        }
    }

    /// The disk, which is made where there is none yet. Nothing of it is kept here.
    fn disk(&mut self) -> Result<MemDisk, Memory> {
        match self.disk.take() {
            Some(disk) => Ok(disk),
            None => self.start.disk(),
        }
    }

    fn add_file(&mut self, rest: &str) -> Result<(), Memory> {
        let (name, text) = rest.split_once(' ').unwrap_or((rest, ""));
        self.given = bytes_of(self.alloc, text)?;
        if let Some(name) = FileName::new(self.alloc, name)? {
            self.start.add(name, self.given.clone()?);
        }
        Ok(())
    }

    /// Lets calls fail: those of the disk that are listed, or one of the input, of out or of err.
    fn fail(&mut self, rest: &str) -> Result<(), Memory> {
        let (what, listed) = rest.split_once(' ').unwrap_or((rest, ""));
        match what {
            "disk" => {
                let calls = numbers(self.alloc, listed)?;
                self.start.fail(calls);
            }
            "input" => self.input_failing = listed.parse().ok(),
            "out" => self.out_failing = listed.parse().ok(),
            _ => self.err_failing = listed.parse().ok(),
        }
        Ok(())
    }

    fn crash(&mut self, choice: u64) -> Result<(), Memory> {
        let disk = self.disk()?;
        self.disk = Some(disk.crash(choice)?);
        Ok(())
    }

    /// Runs the tool, and tells how it ends.
    fn run<R: Threads + Wait + Sync>(
        &mut self,
        threads: &R,
        words: &str,
    ) -> Result<String, Memory> {
        let words = words_of(self.alloc, words)?;
        let mut streams = self.streams()?;
        let disk = self.disk()?;
        let gate = CountingGate::new();
        let (status, disk) = run_over(threads, self.alloc, &gate, &words, &mut streams, disk);
        self.disk = Some(disk);
        self.passes = gate.passes();
        self.hear(&mut streams)?;
        ended(self.alloc, status, &streams)
    }

    /// The input, out and err, of which one call fails each, if any.
    fn streams(&self) -> Result<Streams, Memory> {
        let alloc = self.alloc;
        Ok(Streams {
            input: MemSource::new(self.input.clone()?, listed(alloc, self.input_failing)?),
            out: MemSink::new(alloc, listed(alloc, self.out_failing)?),
            err: MemSink::new(alloc, listed(alloc, self.err_failing)?),
        })
    }

    /// Keeps what a run has put on out, and what it has left of its input.
    fn hear(&mut self, streams: &mut Streams) -> Result<(), Memory> {
        self.out = streams.out.bytes().to_vec(self.alloc)?;
        self.left = rest_of(self.alloc, &mut streams.input)?;
        Ok(())
    }

    fn show(&mut self, name: &str) -> Result<String, Memory> {
        let disk = self.disk()?;
        let answer = match FileName::new(self.alloc, name)? {
            Some(name) => shown(self.alloc, disk.bytes(&name))?,
            None => String::from_str(self.alloc, "no name of a file")?,
        };
        self.disk = Some(disk);
        format!(in self.alloc; "  {answer}\n")
    }

    /// Whether a file has the bytes of the last line `file`.
    fn kept(&mut self, name: &str) -> Result<String, Memory> {
        let disk = self.disk()?;
        let answer = match FileName::new(self.alloc, name)? {
            Some(name) => yes_or_no(disk.bytes(&name) == self.given.as_slice()),
            None => "  no name of a file\n",
        };
        self.disk = Some(disk);
        String::from_str(self.alloc, answer)
    }

    fn call(&mut self, word: &str, rest: &str) -> Result<String, Memory> {
        let mut disk = self.disk()?;
        let answer = calls::answer_to(self.alloc, &mut disk, word, rest)?;
        self.disk = Some(disk);
        Ok(answer)
    }
}

fn yes_or_no(holds: bool) -> &'static str {
    if holds { "  yes\n" } else { "  no\n" }
}

fn listed(alloc: Global, failing: Option<u64>) -> Result<Vec<u64>, Memory> {
    let mut calls = Vec::new(alloc);
    if let Some(call) = failing {
        calls.push(call)?;
    }
    Ok(calls)
}

/// What a run has left of its input, as far as one call gives it.
fn rest_of(alloc: Global, input: &mut MemSource) -> Result<Vec<u8>, Memory> {
    let mut rest = vec![in alloc; 0u8; 1000]?;
    let count = input.take(&mut rest).unwrap_or(0);
    rest.truncate(count);
    Ok(rest)
}

fn numbers(alloc: Global, text: &str) -> Result<Vec<u64>, Memory> {
    let mut numbers = Vec::new(alloc);
    for word in text.split(' ') {
        if let Ok(number) = word.parse() {
            numbers.push(number)?;
        }
    }
    Ok(numbers)
}

/// The words of a line. A blank of a word is written `|s`, and a word of no bytes `|e`.
pub fn words_of(alloc: Global, text: &str) -> Result<Vec<Text>, Memory> {
    let mut words = Vec::new(alloc);
    for word in text.split(' ') {
        if word.is_empty() {
            continue;
        }
        if let Some(word) = text_of(alloc, word)? {
            words.push(Text::new(alloc, &word)?)?;
        }
    }
    Ok(words)
}
