//! Why given weights make no table.

use lab_form::SetId;

/// Why given weights make no table.
#[derive(Clone, Copy, Debug, PartialEq, Eq)]
pub enum TableGiven {
    /// There are not as many weights as the deciding sets have actions.
    WrongCount { needed: u32, given: u32 },
    /// At this deciding set, and at none before it, the weights don't sum to the grid.
    WrongSum { set: SetId },
    Memory,
}
