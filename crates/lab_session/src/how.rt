//! Ways to a blueprint.

/// How the strategies of a blueprint are found.
#[derive(Clone, Copy)]
pub enum How<'a> {
    /// Each seat splits its grid evenly at each deciding set.
    Uniform,
    /// These weights: those of seat 1's deciding sets in set order, and then those of seat 2's.
    Given { weights: &'a [u32] },
    /// The averages over this many rounds of regret matching on the whole game, from 1 to 4,096.
    Solve { rounds: u32 },
}
