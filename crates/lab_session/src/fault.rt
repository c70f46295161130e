//! Why a session does not take a command.

use lab_form::SetId;
use thiserror::Error;

/// Why a session does not take a command; of several reasons the first of these.
#[derive(Clone, Copy, Debug, PartialEq, Eq, Error)]
pub enum SessionFault {
    #[error("there is no blueprint yet")]
    NoBlueprint,
    #[error("there is a blueprint already")]
    SecondBlueprint,
    #[error("a seat is 1 or 2")]
    BadSeat,
    #[error("a number of rounds is from 1 to 4096")]
    BadRounds,
    #[error("{needed} weights are needed, {given} are given")]
    WrongCount { needed: u32, given: u32 },
    /// At this deciding set of the seat, and at none before it, the weights don't sum to the grid.
    #[error("the weights of seat {seat} at a set do not sum to the grid")]
    WrongSum { seat: u32, set: SetId },
    #[error("no memory was left")]
    Memory,
}
