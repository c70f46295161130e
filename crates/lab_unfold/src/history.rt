//! A history as it is kept, the scale of all of them, and why a game is not unfolded.

use lab_world::WorldId;

/// The number of a history: histories are numbered from 0 by length, and then lexicographically by their steps.
#[derive(Clone, Copy, Debug, PartialEq, Eq, PartialOrd, Ord)]
pub struct HistoryId(pub u32);

/// The places, counted from 0, of each seat's action among its actions at a world, and of the outcome in the row of both.
#[derive(Clone, Copy, Debug, PartialEq, Eq, PartialOrd, Ord)]
pub struct Step {
    pub place1: u32,
    pub place2: u32,
    pub outcome: u32,
}

/// Steps from the root world, kept by the last one.
#[derive(Clone, Copy, Debug, PartialEq, Eq)]
pub struct History {
    /// The history without the last step; none where there is no step.
    pub parent: Option<HistoryId>,
    /// The last step.
    pub step: Option<Step>,
    /// Where the steps lead: a world, or an end.
    pub world: WorldId,
    /// How many steps they are.
    pub depth: u32,
}

/// The scale of chances, and what the size of numbers goes by.
#[derive(Clone, Copy, Debug, PartialEq, Eq)]
pub struct Scale {
    /// Each chance is a whole number over it.
    pub k: u128,
    /// The most worlds where seat 1 has two or more actions that the steps of a history pass.
    pub most1: u32,
    /// Likewise of seat 2.
    pub most2: u32,
    /// The greatest absolute payoff.
    pub top: u32,
    /// The grid of the game.
    pub grid: u32,
}

/// Why a game is not unfolded.
#[derive(Clone, Copy, Debug, PartialEq, Eq)]
pub enum UnfoldFault {
    /// There are more than 65,536 histories of at most `depth` steps, and not of fewer.
    TooManyHistories {
        depth: u32,
    },
    /// The histories with as many steps as the horizon do not all end: the first that does not leads to this world.
    HorizonPassed {
        history_world: WorldId,
    },
    /// Sums of earnings may pass 2^64 in whole units: the greatest payoff, the scale unless it is above 2^80, and the most decisions of each seat.
    SizePassed {
        top: u32,
        k: Option<u128>,
        most1: u32,
        most2: u32,
    },
    Memory,
}
