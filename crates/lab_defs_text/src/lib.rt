//! Definitions of game texts: bytes, lines, words, names, numbers, and the texts of a game.
#![tactic(auto)]

pub mod laws;
