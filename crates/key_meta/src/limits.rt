//! How long texts may be. The crates above measure by these.

/// The most bytes of a value and of a metadata text.
pub const LONGEST_VALUE: usize = 65536;

/// The most bytes of a metadata name.
pub const LONGEST_META_NAME: usize = 4096;
