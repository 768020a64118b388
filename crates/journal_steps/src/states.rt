//! The states of a journal.

/// What is known of the gates on the disk.
#[derive(Clone, Copy, Debug, PartialEq, Eq)]
pub enum State {
    /// The header gate is closed for good: the journal has no header.
    Bare,
    /// The header gate is open, and the list's first gate closed, for good.
    Clean,
    /// A gate may be open or closed.
    Doubt,
    /// The gates of a list are open for good, whether or not all its files have their contents.
    Lag,
}
