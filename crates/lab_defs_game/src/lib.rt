//! Definitions of what a game unfolds to: histories, information sets, chance, and the rows of its form.
#![tactic(auto)]

pub mod laws;
