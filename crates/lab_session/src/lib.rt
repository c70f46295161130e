//! Sessions: a game with a strategy of each seat, and the bounds on what each can lose.
#![tactic(auto)]

mod blueprint;
mod board;
mod fault;
mod histories;
mod how;
mod session;
mod side;
mod solve;
mod start;
mod units;

pub use fault::SessionFault;
pub use how::How;
pub use session::Session;
pub use start::StartFault;
