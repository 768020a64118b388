//! The numbers of the layout of a list, and of the head before it.

/// The most entries of a list.
pub const MOST_ENTRIES: usize = 32;

/// Each entry of a list ends at this place or before, counted from the first gate.
pub const LAST_PLACE: u64 = 67200005;

/// A gate, and the length of a body.
pub const HEAD: usize = 5;

/// A closed gate.
pub const CLOSED: u8 = 0;

/// An open gate.
pub const OPEN: u8 = 1;

/// The gate of a header, the version, and the length of the header.
pub(crate) const HEAD_START: usize = 6;

/// The version whose header names the files of the list.
pub(crate) const VERSION: u8 = 2;

/// The most bytes of a header.
pub(crate) const LONGEST_HEADER: u32 = 6465;
