//! Safe re-solving of a subgame: the rule `cfrd`.
#![tactic(auto)]

mod cfrd;

pub use cfrd::Cfrd;
