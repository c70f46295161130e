//! Definitions of what the program answers: its modes, and the bytes of its report.
#![tactic(auto)]

pub mod laws;
