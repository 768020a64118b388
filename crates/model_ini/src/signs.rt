//! The signs of a line.

/// A byte of a line as it stands, or a byte that a backslash before it covers.
#[derive(Clone, Copy, PartialEq, Eq)]
pub enum Sign {
    /// A byte as it stands.
    Plain(u8),
    /// The byte behind a backslash.
    Covered(u8),
}
