//! Bounds on what any reply earns against a strategy: a number for each information set of the opponent.
#![tactic(auto)]

mod bounds;
mod broken;

pub use bounds::{BoundTable, NoMemory};
pub use broken::Broken;

#[cfg(test)]
mod tests;
