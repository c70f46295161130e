//! Forms: the information sets of each seat and the rows of a game, of a part of one, or of a game made from it.
#![tactic(auto)]

mod chain;
mod decision;
mod form;
mod items;
mod room;
mod seat_sets;
mod seats;
mod step_chains;

pub use chain::Chain;
pub use form::{Form, NoMemory};
pub use items::{FormRow, FormSet, SetId, Span};
pub use seats::other;

#[cfg(test)]
mod tests;
