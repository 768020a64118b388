//! Disks over real folders: calls of them, and runs of the tool over them.

use crate::calls::{is_call, real_answer_to};
use crate::ran::{Streams, ended, run_over};
use crate::runs::words_of;
use disk_real::RealDisk;
use kdb_outside::OpenGate;
use key_meta::Memory;
use std::mem;
use std::sync::Wait;
use std::thread::Threads;

/// The real disk that calls and runs are made over, and one that waits beside it.
#[derive(Drop)]
pub struct Reals {
    rt: HostRuntime,
    disk: Option<RealDisk>,
    beside: Option<RealDisk>,
}

impl Reals {
    pub fn new(rt: HostRuntime) -> Reals {
        Reals {
            rt,
            disk: None,
            beside: None,
        }
    }

    /// What comes of a line, if it is one of real disks, or of any disk while there is a real one.
    pub fn answer_to<R: Threads + Wait + Sync>(
        &mut self,
        threads: &R,
        word: &str,
        rest: &str,
    ) -> Result<Option<String>, Memory> {
        match word {
            "real" => self.begin(rest)?,
            "other" => mem::swap(&mut self.disk, &mut self.beside),
            "done" => self.disk = self.beside.take(),
            "disk" => return Ok(self.end()),
            "run" => return self.run(threads, rest),
            _ => return self.call(word, rest),
        }
        Ok(Some(String::new(self.rt.alloc())))
    }

    /// Begins a disk over a folder, and perhaps with a number of tries to take its lock. The last one waits beside it.
    fn begin(&mut self, rest: &str) -> Result<(), Memory> {
        let disk = match rest.split_once(' ') {
            Some((folder, tries)) => {
                RealDisk::trying(self.rt, folder, tries.parse().unwrap_or(1))?
            }
            None => RealDisk::new(self.rt, rest)?,
        };
        self.beside = mem::replace(&mut self.disk, Some(disk));
        Ok(())
    }

    /// Lets both disks go, since one in memory begins.
    fn end(&mut self) -> Option<String> {
        self.disk = None;
        self.beside = None;
        None
    }

    fn call(&mut self, word: &str, rest: &str) -> Result<Option<String>, Memory> {
        match &mut self.disk {
            Some(disk) if is_call(word) => {
                let answer = real_answer_to(self.rt.alloc(), disk, word, rest)?;
                Ok(Some(answer))
            }
            _ => Ok(None),
        }
    }

    /// Runs the tool without an input.
    fn run<R: Threads + Wait + Sync>(
        &mut self,
        threads: &R,
        words: &str,
    ) -> Result<Option<String>, Memory> {
        let Some(disk) = self.disk.take() else {
            return Ok(None);
        };
        let alloc = self.rt.alloc();
        let words = words_of(alloc, words)?;
        let mut streams = Streams::new(alloc);
        let (status, disk) = run_over(threads, alloc, &OpenGate, &words, &mut streams, disk);
        self.disk = Some(disk);
        Ok(Some(ended(alloc, status, &streams)?))
    }
}
