//! Words and lemmas on numbers and lists that the library of the kit does not have.
#![tactic(auto)]

pub mod laws;
