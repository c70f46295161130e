//! Re-solving of a subgame where what the opponent gives up on the way there may be given back: the rule `reach`.
#![tactic(auto)]

mod pool;
mod reach;

pub use reach::Reach;
