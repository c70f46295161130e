//! How what is seen along a history goes on from an earlier one.

use crate::Item;

/// What is seen is what is seen along the history with the number `parent`, and this item.
#[derive(Clone, Copy, Debug, PartialEq, Eq, PartialOrd, Ord)]
pub struct Link {
    pub parent: u32,
    pub item: Item,
}

/// What of an item is kept.
#[derive(Clone, Copy, Debug, PartialEq, Eq)]
pub enum Kept {
    /// The public token.
    Public,
    /// The private and the public token, at histories that are not terminal.
    Tokens,
    /// All, at histories that are not terminal.
    Whole,
}
