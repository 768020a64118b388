//! The standard streams of the program itself.

use kdb_outside::{Failed, ReaderSource, Sink, Source, WriterSink};
use kdb_process::{dead_end, taken_streams};
use key_meta::Memory;

/// What comes of a line, if it is one of streams.
pub fn answer_to(rt: HostRuntime, word: &str) -> Result<Option<String>, Memory> {
    match word {
        "streams" => Ok(Some(taken(rt)?)),
        "dead-end" => Ok(Some(moved(rt)?)),
        _ => Ok(None),
    }
}

/// The number of streams that are closed, each of which is taken for a while.
fn taken(rt: HostRuntime) -> Result<String, Memory> {
    match taken_streams(rt) {
        Ok(files) => format!(in rt.alloc(); "  {} closed\n", files.len()),
        Err(_) => String::from_str(rt.alloc(), "  failed\n"),
    }
}

/// Whether what takes the place of a closed stream gives or takes a byte.
fn moved(rt: HostRuntime) -> Result<String, Memory> {
    let (Ok(from), Ok(to)) = (dead_end(rt), dead_end(rt)) else {
        return String::from_str(rt.alloc(), "  none\n");
    };
    let mut buf = [b'.'];
    let gives = ReaderSource::new(from).take(&mut buf) != Err(Failed);
    let takes = WriterSink::new(to).put(b"a") != Err(Failed);
    format!(in rt.alloc(); "  gives {gives}, takes {takes}\n")
}
