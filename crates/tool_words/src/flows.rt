//! Which way keys pass, in a format.

/// The keys at or below a name go out as a text, or others come in from one.
#[derive(Clone, Copy, PartialEq, Eq)]
pub enum Flow {
    Out,
    In,
}
