//! Re-solving of a subgame for the greatest margin: the rule `margin`.
#![tactic(auto)]

mod margin;

pub use margin::Margin;
