//! What the texts of a type are.

/// Which texts a type takes.
#[derive(Clone, Copy, PartialEq, Eq)]
pub enum Kind {
    /// Any text.
    AnyText,
    /// `1` or `0`.
    Bit,
    /// One byte of ASCII.
    AsciiByte,
    /// A number from `low` to `high`.
    Number { low: i128, high: i128 },
}
