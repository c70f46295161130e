//! A game as the program has it, and how it is made of its parts.
#![tactic(auto)]

mod assemble;
mod game;
mod known;
mod made;
mod name_list;
mod named;
mod number_set;
mod numbered;
mod ordered;
mod parts;
mod place;
mod placed;
mod reads;
mod rooted;
mod row_numbers;
mod seat;
mod stages;

pub use game::Game;
pub use parts::{AssembleFault, PartOutcome, PartPlace, PartRow, Parts};
pub use place::{ActionId, Outcome, Place, Recall, Row, TokenId, World, WorldId};
pub use seat::Seat;
