//! Laws of how large the numbers of a session can be.
#![tactic(auto)]

pub mod sizes;
