//! Why a mount is bad.

/// What is wrong with the file of a mount.
#[derive(Clone, Copy, PartialEq, Eq)]
pub enum Cause {
    /// It has more than 1,048,576 bytes: so many.
    TooLong { bytes: u64 },
    /// It doesn't read as keys: the line, from 1. Line 0 says that the whole name of a key would be too long.
    BadFile { line: u64 },
    /// Its visible keys bring the weight of all visible keys over 16,777,216: to this one, at most `u64::MAX`.
    TooHeavy { weight: u64 },
}
