//! A case is a line: a word that says what is done, and what it is done with.

use crate::answers::{lines_of, push_flushes};
use crate::asking::{event_of, number_of, put, put_all, put_many, put_meta};
use crate::commits::{failed_commits, stopped_commits};
use crate::fronts::fronts_of;
use crate::showing::push_bytes;
use crate::spelling::spelled_out;
use crate::starts::Start;
use crate::steps::{Past, Steps};
use crate::stores::{Played, play_behind};
use disk_memory::MemDisk;
use kdb_outside::FileName;
use key_meta::Memory;
use key_set::KeySet;
use std::alloc::Global;
use std::mem;
use store_play::Event;

/// What a disk begins with, the runs and crashes behind that, the last run and what it left; the keys that are prepared
/// next, and the events that are played next, with how many of them are before each flush.
#[derive(Drop)]
pub struct Cases {
    alloc: Global,
    start: Start,
    past: Vec<Past>,
    played: Option<(Vec<Event>, Vec<usize>)>,
    left: Option<MemDisk>,
    keys: KeySet,
    events: Vec<Event>,
    flushes: Vec<usize>,
}

impl Cases {
    pub fn new(alloc: Global) -> Cases {
        Cases {
            alloc,
            start: Start::new(alloc),
            past: Vec::new(alloc),
            played: None,
            left: None,
            keys: KeySet::new(alloc),
            events: Vec::new(alloc),
            flushes: Vec::new(alloc),
        }
    }

    /// What comes of a line. Nothing comes of a blank one and of a comment.
    pub fn answer_to(&mut self, line: &str) -> Result<String, Memory> {
        let line = spelled_out(self.alloc, line)?;
        let (word, rest) = line.split_once(' ').unwrap_or((line.as_str(), ""));
        match word {
            "" | "#" => {}
            "disk" => *self = Cases::new(self.alloc),
            "again" => self.begin_again(),
            "file" => self.add_file(rest)?,
            "fail" => self.start.failing = self.numbers(rest)?,
            "refuse" => self.start.refusing = self.numbers(rest)?,
            "stop" => self.start.stop_after = rest.parse().ok(),
            "keys" | "put" | "many" | "meta" => return self.put(word, rest),
            "get" | "prepare" | "commit" => return self.ask(word, rest),
            "flush" => self.flushes.push(self.events.len())?,
            _ => return self.look(word, rest),
        }
        Ok(String::new(self.alloc))
    }

    fn look(&mut self, word: &str, rest: &str) -> Result<String, Memory> {
        match word {
            "play" => self.play(),
            "crash" => self.crash(rest.parse().unwrap_or(0)),
            "show" => self.show(rest),
            "calls" => self.calls(),
            "fronts" => self.fronts(rest.parse().unwrap_or(0)),
            "stopped" | "failed" => self.tried_commits(word, rest),
            _ => String::from_str(self.alloc, "  no such case\n"),
        }
    }

    /// A new case over the files of the last one, whose calls all go through.
    fn begin_again(&mut self) {
        self.start.failing = Vec::new(self.alloc);
        self.start.refusing = Vec::new(self.alloc);
        self.start.stop_after = None;
        self.past = Vec::new(self.alloc);
        self.played = None;
        self.left = None;
        self.keys = KeySet::new(self.alloc);
        self.events = Vec::new(self.alloc);
        self.flushes = Vec::new(self.alloc);
    }

    /// Adds a file, whose lines are parted by `|n`.
    fn add_file(&mut self, rest: &str) -> Result<(), Memory> {
        let (name, text) = rest.split_once(' ').unwrap_or((rest, ""));
        let mut bytes = Vec::new(self.alloc);
        let mut parts = text.split("|n");
        if let Some(first) = parts.next() {
            bytes.extend_from_slice(first.as_bytes())?;
        }
        for part in parts {
            bytes.push(b'\n')?;
            bytes.extend_from_slice(part.as_bytes())?;
        }
        if let Some(name) = FileName::new(self.alloc, name)? {
            self.start.add(name, bytes);
        }
        Ok(())
    }

    /// The numbers of some calls.
    fn numbers(&self, rest: &str) -> Result<Vec<u64>, Memory> {
        let mut calls = Vec::new(self.alloc);
        for call in rest.split(' ') {
            if let Ok(call) = call.parse() {
                calls.push(call)?;
            }
        }
        Ok(calls)
    }

    fn put(&mut self, word: &str, rest: &str) -> Result<String, Memory> {
        let named = match word {
            "keys" => {
                self.keys = KeySet::new(self.alloc);
                put_all(self.alloc, &mut self.keys, rest)?
            }
            "many" => put_many(self.alloc, &mut self.keys, rest)?,
            "meta" => put_meta(self.alloc, &mut self.keys, rest)?,
            _ => put(self.alloc, &mut self.keys, rest)?,
        };
        if named {
            Ok(String::new(self.alloc))
        } else {
            String::from_str(self.alloc, "  no name\n")
        }
    }

    fn ask(&mut self, word: &str, rest: &str) -> Result<String, Memory> {
        match event_of(self.alloc, word, rest, &self.keys)? {
            Some(event) => {
                self.events.push(event)?;
                Ok(String::new(self.alloc))
            }
            None => String::from_str(self.alloc, "  no name\n"),
        }
    }

    /// Plays the events on the disk that the crashes so far left of the one that the case begins with.
    fn play(&mut self) -> Result<String, Memory> {
        let (events, flushes) = self.take_steps();
        let steps = Steps {
            events: &events,
            flushes: &flushes,
        };
        let Some(played) = play_behind(self.alloc, &self.start, &self.past, steps)? else {
            return String::from_str(self.alloc, "  no disk\n");
        };
        let Played {
            left,
            answers,
            flushes: told,
        } = played;
        let mut lines = lines_of(self.alloc, &answers)?;
        if !flushes.is_empty() {
            push_flushes(self.alloc, &mut lines, told)?;
        }
        self.left = Some(left);
        self.played = Some((events, flushes));
        Ok(lines)
    }

    /// The events and the flushes between them. None are left.
    fn take_steps(&mut self) -> (Vec<Event>, Vec<usize>) {
        let events = mem::replace(&mut self.events, Vec::new(self.alloc));
        let flushes = mem::replace(&mut self.flushes, Vec::new(self.alloc));
        (events, flushes)
    }

    /// The events, tried over and over: stopped after each of these numbers of calls, or with each of these calls
    /// failing alone.
    fn tried_commits(&mut self, word: &str, rest: &str) -> Result<String, Memory> {
        let (events, flushes) = self.take_steps();
        let steps = Steps {
            events: &events,
            flushes: &flushes,
        };
        let (from, rest) = number_of(rest);
        let (to, _) = number_of(rest);
        let range = (from as u64, to as u64);
        match word {
            "stopped" => stopped_commits(self.alloc, &mut self.start, steps, range),
            _ => failed_commits(self.alloc, &mut self.start, steps, range),
        }
    }

    /// The events, played for each front of them. They stay.
    fn fronts(&mut self, choice: u64) -> Result<String, Memory> {
        let steps = Steps {
            events: &self.events,
            flushes: &self.flushes,
        };
        fronts_of(self.alloc, &self.start, steps, choice)
    }

    /// A crash behind the last run: what comes next is played behind it.
    fn crash(&mut self, choice: u64) -> Result<String, Memory> {
        match self.played.take() {
            Some((events, flushes)) => {
                self.left = None;
                self.past.push(Past {
                    events,
                    flushes,
                    choice,
                })?;
                Ok(String::new(self.alloc))
            }
            None => String::from_str(self.alloc, "  no disk\n"),
        }
    }

    /// The lines of a file behind the last run.
    fn show(&self, name: &str) -> Result<String, Memory> {
        let (Some(left), Some(name)) = (&self.left, FileName::new(self.alloc, name)?) else {
            return String::from_str(self.alloc, "  no disk\n");
        };
        let mut shown = String::from_str(self.alloc, "  ")?;
        push_bytes(self.alloc, &mut shown, left.bytes(&name))?;
        shown.push_str("\n")?;
        Ok(shown)
    }

    fn calls(&self) -> Result<String, Memory> {
        match &self.left {
            Some(left) => {
                let calls = left.calls();
                format!(in self.alloc; "  {calls}\n")
            }
            None => String::from_str(self.alloc, "  no disk\n"),
        }
    }
}
