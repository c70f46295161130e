//! Best responses to a strategy, and what two strategies bring: exact sums over the rows of a form, in whole numbers.
#![tactic(auto)]

mod best;
mod expectation;
mod greatest;
mod memo;
mod through;
mod weight;
mod worth;

pub use best::{best_reply, best_table};
pub use expectation::expect;
pub use through::action_values;

#[cfg(test)]
mod tests;
