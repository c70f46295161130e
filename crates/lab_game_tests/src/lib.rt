//! Tests of games, histories and trees at concrete values, across their crates.
#![tactic(auto)]

#[cfg(test)]
mod assembling;
#[cfg(test)]
mod histories;
#[cfg(test)]
mod reads;
#[cfg(test)]
mod trees;
