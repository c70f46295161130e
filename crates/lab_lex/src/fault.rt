//! Why a line or a word is refused.

use thiserror::Error;

/// A fault and its place: the number of the word in its line, counted from 1.
#[derive(Clone, Copy, Debug, PartialEq, Eq, Error)]
pub enum LexFault {
    /// Nothing stands between two spaces, or before the first one, or behind the last one.
    #[error("word {place} is empty")]
    BadSpace { place: u32 },
    /// The word is not from 1 to 32 letters, digits, `_`, `-`, `.` or `/`.
    #[error("word {place} is no name")]
    BadName { place: u32 },
    /// The word is not the one spelling of a whole number.
    #[error("word {place} is no whole number")]
    BadNumber { place: u32 },
    /// The number is not among those that are allowed at this place.
    #[error("the number at word {place} is out of range")]
    OutOfRange { place: u32 },
}
