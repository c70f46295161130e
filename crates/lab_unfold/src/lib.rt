//! The histories of a game: what each leads to, its chance and what it pays, what is seen along it and which are seen alike, and what they all make of the size of numbers.
#![tactic(auto)]

mod chances;
mod children;
mod decisions;
mod firsts;
mod histories;
mod history;
mod item;
mod levels;
mod link;
mod links;
mod payoffs;
mod seen;
mod sizes;
mod steps;
mod unfolding;
mod units;

pub use histories::Histories;
pub use history::{History, HistoryId, Scale, Step, UnfoldFault};
pub use item::{Item, last_seen};
pub use seen::first_of_tokens;
pub use unfolding::unfold;
