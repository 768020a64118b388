//! The standard streams that the program was started without.
use std::fs::File;
use std::io;
use std::os::fd::AsRawFd;

/// The highest number of a standard stream.
const LAST_STREAM: i32 = 2;

/// Something that is open, and that neither gives nor takes bytes: a folder that is read as a file.
pub fn dead_end(rt: HostRuntime) -> io::Result<File> {
    File::open(&rt, "/")
}

/// Takes the number of each standard stream that is closed, as long as these files are open. No file that is opened
/// meanwhile becomes such a stream then, and reading or writing one fails.
pub fn taken_streams(rt: HostRuntime) -> io::Result<Vec<File>> {
    let mut taken = Vec::new(rt.alloc());
    for _ in 0..=LAST_STREAM {
        let file = dead_end(rt)?;
        if file.as_raw_fd() > LAST_STREAM {
            break;
        }
        taken.push(file)?;
    }
    Ok(taken)
}
