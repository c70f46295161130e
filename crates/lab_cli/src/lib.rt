//! The modes and commands of the program.
#![tactic(auto)]

mod calls;
mod check;
mod command_faults;
mod counts;
mod mode;
mod output;
mod print;
mod program;
mod replies;
mod session;
mod status;

pub use program::run;
pub use status::Status;
