//! Numbers from one to another.

/// The numbers from `low` to `high`, both of them too.
#[derive(Clone, Copy, PartialEq, Eq)]
pub struct Interval {
    pub low: i128,
    pub high: i128,
}
