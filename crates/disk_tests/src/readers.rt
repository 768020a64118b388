//! Readers by examples.

use kdb_outside::{Failed, ReaderSource, Source};
use std::io;
use std::io::{ErrorKind, Read};
use std::test::Fail;

/// Gives an `a` at every third call from the first on, an interruption at the next, and an error at the one after.
#[derive(Drop)]
struct Hiccups {
    calls: u8,
}

impl Read for Hiccups {
    fn read(&mut self, buf: &mut [u8]) -> io::Result<usize> {
        let call = self.calls;
        self.calls = self.calls.wrapping_add(1);
        match call % 3 {
            0 if !buf.is_empty() => {
                buf[0] = b'a';
                Ok(1)
            }
            0 => Ok(0),
            1 => Err(io::Error::from(ErrorKind::Interrupted)),
            _ => Err(io::Error::from(ErrorKind::Other)),
        }
    }
}

#[test]
fn hides_interruptions_and_no_other_error(rt: HostRuntime) {
    let mut source = ReaderSource::new(Hiccups { calls: 0 });
    let mut buf = [b'.'; 2];
    for count in [Ok(1), Err(Failed), Ok(1), Err(Failed)] {
        assert_eq!(rt; source.take(&mut buf), count);
    }
    assert_eq!(rt; &buf, b"a.");
}
