//! Whether a game has perfect recall, and the first reason why not.
#![tactic(auto)]

mod check;
mod fault;
mod memory;
mod names;

pub use check::check_sets;
pub use fault::RecallFault;
