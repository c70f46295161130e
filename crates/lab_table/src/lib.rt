//! The weights of a seat's strategy at its deciding sets, and the rule that rounds shares to such weights.
#![tactic(auto)]

mod check;
mod even;
mod given;
mod places;
mod quotient;
mod rounding;
mod table;

pub use given::TableGiven;
pub use rounding::rounded;
pub use table::Table;

#[cfg(test)]
mod tests;
