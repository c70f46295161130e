//! A whole game.
ghost use Rattle.std.specs.Prelude.{IsTrue};
ghost use Rattle.lab_world.specs.Wholes.{is_whole_game};

use super::place::{Place, Recall, WorldId};
use lab_lex::NameTable;
use lab_seq::Seq;

/// A game whose parts fit together: one name a place, ids in range, one row for each joint action, numbers within their limits.
#[derive(Drop)]
pub struct Game {
    /// From 1 to 4,096: the weights of a strategy at a set sum to it.
    pub grid: u32,
    /// From 1 to 32: the most steps of a history.
    pub horizon: u32,
    pub recall: Recall,
    pub tokens: NameTable,
    /// The names of the places.
    pub names: NameTable,
    /// The names of all actions, in the order in which they first stand.
    pub actions: NameTable,
    pub places: Seq<Place>,
    /// A world.
    pub root: WorldId,
    ghost whole: { IsTrue (is_whole_game grid horizon recall tokens names actions places root) },
}
