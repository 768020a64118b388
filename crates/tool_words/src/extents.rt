//! Which keys a command is for.

/// The named key alone, or all at or below the name.
#[derive(Clone, Copy, PartialEq, Eq)]
pub enum Extent {
    Alone,
    WithBelow,
}
