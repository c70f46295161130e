//! Tests of the rules at concrete views: one with two root sets, and one with a single root set.
#![tactic(auto)]

#[cfg(test)]
mod items;
#[cfg(test)]
mod run;
#[cfg(test)]
mod single;
#[cfg(test)]
mod tests;
#[cfg(test)]
mod two;
