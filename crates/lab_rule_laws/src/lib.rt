//! Laws of best responses, of the rules by which a part of a strategy may be replaced, and of what a rule is told.
#![tactic(auto)]

pub mod rules;
pub mod views;
