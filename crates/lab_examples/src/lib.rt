//! Worked examples: each is the contract of a function without a body, which the check computes from the
//! definitions, from the bytes of the input to the bytes of the output.
#![tactic(auto)]

pub mod certificates;
pub mod checks;
pub mod commands;
pub mod decks;
pub mod fork;
pub mod gadgets;
pub mod generated;
pub mod inputs;
pub mod kuhn;
pub mod limits;
pub mod pennies;
pub mod prints;
pub mod rounding;
pub mod session;
pub mod solving;
pub mod surveys;
pub mod texts;
pub mod trees;
pub mod values;
pub mod walks;
