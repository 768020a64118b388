//! A case is a line: a word that says what is done, and what it is done with.

use crate::reals::Reals;
use crate::runs::Runs;
use crate::sets::Keys;
use crate::{bodies, folders, formats, merges, names, streams, texts};
use key_meta::Memory;
use std::alloc::Global;
use std::sync::Wait;
use std::thread::Threads;

/// What the lines of a file were so far.
#[derive(Drop)]
pub struct Cases {
    rt: HostRuntime,
    alloc: Global,
    reals: Reals,
    runs: Runs,
    keys: Keys,
}

impl Cases {
    pub fn new(rt: HostRuntime) -> Cases {
        let alloc = rt.alloc();
        Cases {
            rt,
            alloc,
            reals: Reals::new(rt),
            runs: Runs::new(alloc),
            keys: Keys::new(alloc),
        }
    }

    /// What comes of a line. Nothing comes of a blank one and of a comment.
    pub fn answer_to<R: Threads + Wait + Sync>(
        &mut self,
        threads: &R,
        line: &str,
    ) -> Result<String, Memory> {
        if line.is_empty() || line.starts_with('#') {
            return Ok(String::new(self.alloc));
        }
        let (word, rest) = line.split_once(' ').unwrap_or((line, ""));
        if let Some(answer) = self.reals.answer_to(threads, word, rest)? {
            return Ok(answer);
        }
        if let Some(answer) = self.runs.answer_to(threads, word, rest)? {
            return Ok(answer);
        }
        if let Some(answer) = self.keys.answer_to(word, rest)? {
            return Ok(answer);
        }
        self.answer_alone(word, rest)
    }

    /// What comes of a line that goes on from no other.
    fn answer_alone(&self, word: &str, rest: &str) -> Result<String, Memory> {
        if let Some(answer) = folders::answer_to(self.rt, word, rest)? {
            return Ok(answer);
        }
        if let Some(answer) = streams::answer_to(self.rt, word)? {
            return Ok(answer);
        }
        if let Some(answer) = names::answer_to(self.alloc, word, rest)? {
            return Ok(answer);
        }
        if let Some(answer) = texts::answer_to(self.alloc, word, rest)? {
            return Ok(answer);
        }
        if let Some(answer) = formats::answer_to(self.alloc, word, rest)? {
            return Ok(answer);
        }
        if let Some(answer) = merges::answer_to(self.alloc, word, rest)? {
            return Ok(answer);
        }
        match bodies::answer_to(self.alloc, word, rest)? {
            Some(answer) => Ok(answer),
            None => String::from_str(self.alloc, "  no such case\n"),
        }
    }
}
