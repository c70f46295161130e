//! Worths.

/// What a player gains, as a count of the unit that the caller has in mind; below zero, a loss.
#[derive(Clone, Copy, Debug, PartialEq, Eq, PartialOrd, Ord)]
pub struct Worth(pub i128);
