//! What the program `kdb` does from its start to its end: it takes its words and its streams, and runs the tool over
//! the files of a folder. It is a crate of its own, so that several programs can be run on it.
#![tactic(auto)]

mod streams;

use disk_real::RealDisk;
use kdb_outside::{OpenGate, ReaderSource, Sink, WriterSink};
pub use kdb_tool::run;
use key_meta::Text;
use regex_check::RegexPatterns;
use std::env::VarError;
use std::io::ErrorKind;
use std::process::ExitCode;
use std::sync::Wait;
use std::thread::Threads;
use std::{env, io};
pub use streams::{dead_end, taken_streams};

/// The folder of the store.
const FOLDER: &str = ".kdb";

/// The variable that names the folder which it stands in.
const ABOVE: &str = "KDB_DIR";

/// The path of the store's folder: in the folder that the variable names, or in the one that the program runs in where
/// it names none.
fn folder(rt: HostRuntime) -> io::Result<String> {
    match env::var(&rt, ABOVE) {
        Ok(above) if !above.is_empty() => Ok(format!(in rt.alloc(); "{above}/{FOLDER}")?),
        Ok(_) | Err(VarError::NotPresent) => Ok(String::from_str(rt.alloc(), FOLDER)?),
        Err(VarError::NotUnicode) => Err(io::Error::from(ErrorKind::InvalidInput)),
        Err(VarError::OutOfMemory) => Err(io::Error::from(ErrorKind::OutOfMemory)),
    }
}

/// The words of the command line, without the program's name.
fn words(rt: HostRuntime) -> io::Result<Vec<Text>> {
    let mut words = Vec::new(rt.alloc());
    for word in env::args(&rt)?.skip(1) {
        words.push(Text::new(rt.alloc(), word.as_str())?)?;
    }
    Ok(words)
}

/// Runs the tool with the words of the command line over the files of `.kdb`, in the folder that `KDB_DIR` names or
/// else in the one that the program was started in, and answers the status that it is to end with. `threads` is the
/// runtime as `main` has it, which may start threads and wait.
pub fn start<R: Threads + Wait + Sync>(rt: HostRuntime, threads: &R) -> ExitCode {
    let mut err = WriterSink::new(rt.stderr());
    match taken_streams(rt) {
        Ok(taken) => {
            let status = run_words(rt, threads, &mut err);
            drop(taken);
            status
        }
        Err(error) => refuse_to_start(error, &mut err),
    }
}

/// Runs the tool with the words of the command line.
fn run_words<E: Sink, R: Threads + Wait + Sync>(
    rt: HostRuntime,
    threads: &R,
    err: &mut E,
) -> ExitCode {
    match words(rt) {
        Ok(words) => match folder(rt) {
            Ok(folder) => run_in(rt, threads, folder.as_str(), &words, err),
            Err(error) => refuse_to_start(error, err),
        },
        Err(error) => refuse_words(error, err),
    }
}

/// Runs the tool over a folder and the real input and output.
fn run_in<E: Sink, R: Threads + Wait + Sync>(
    rt: HostRuntime,
    threads: &R,
    folder: &str,
    words: &[Text],
    err: &mut E,
) -> ExitCode {
    let Ok(disk) = RealDisk::new(rt, folder) else {
        return end(70, "kdb: C01110 out of memory\n", err);
    };
    let mut input = ReaderSource::new(rt.stdin());
    let mut out = WriterSink::new(rt.stdout());
    let (status, _, _) = run(
        threads,
        rt.alloc(),
        words,
        &mut input,
        &mut out,
        err,
        disk,
        RegexPatterns::new(),
        &OpenGate,
    );
    ExitCode::from(status.code())
}

/// Nothing can be opened, not even what takes the place of a closed stream, the store's folder has no name, or memory
/// is wanting.
fn refuse_to_start<E: Sink>(error: io::Error, err: &mut E) -> ExitCode {
    match error.kind() {
        ErrorKind::OutOfMemory => end(70, "kdb: C01110 out of memory\n", err),
        _ => end(74, "kdb: C01100 disk-fault\n", err),
    }
}

/// The words can't be had: one of them is no text, or memory is wanting.
fn refuse_words<E: Sink>(error: io::Error, err: &mut E) -> ExitCode {
    match error.kind() {
        ErrorKind::OutOfMemory => end(70, "kdb: C01110 out of memory\n", err),
        _ => end(2, "kdb: C01320 argument: not UTF-8\n", err),
    }
}

/// Puts a line on err and ends with a status, or with that of a fault.
fn end<E: Sink>(status: u8, line: &str, err: &mut E) -> ExitCode {
    match err.put(line.as_bytes()) {
        Ok(()) => ExitCode::from(status),
        Err(_) => ExitCode::from(74),
    }
}
