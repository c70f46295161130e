//! Regret matching on a form: exact regrets and averages, round by round, in whole numbers.
#![tactic(auto)]

mod numbers;
mod play;
mod powers;
mod reach;
mod regrets;
mod room;
mod rows;
mod sums;
mod tables;
mod values;

pub use regrets::{NoMemory, Regrets};
