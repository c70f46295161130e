//! Definitions of strategies and what they earn.
#![tactic(auto)]

pub mod laws;
