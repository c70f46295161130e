//! The opponent's sets on the path to a subgame, and the steps between them.

use lab_form::SetId;
use lab_units::Worth;

/// An information set of the opponent on the path to a subgame.
#[derive(Clone, Copy, Debug, PartialEq, Eq)]
pub struct PathSet {
    /// Its number in the game.
    pub set: SetId,
    /// Its bound.
    pub bound: Worth,
    /// The step of the path that it follows, and its place among the sets that follow it; none at the first set.
    pub follows: Option<(u32, u32)>,
}

/// An action by which the opponent goes from one set on the path to others.
#[derive(Clone, Copy, Debug, PartialEq, Eq)]
pub struct PathStep {
    /// The place on the path of the set that it leaves.
    pub from: u32,
    /// The action there.
    pub action: u32,
    /// What the action backs up by the bounds.
    pub through: Worth,
    /// How many sets of the path follow.
    pub count: u32,
}
