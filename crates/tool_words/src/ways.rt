//! How keys are brought to other names.

/// The old keys stay, or they are taken away before the new ones are set.
#[derive(Clone, Copy, PartialEq, Eq)]
pub enum Way {
    Copies,
    Moves,
}
