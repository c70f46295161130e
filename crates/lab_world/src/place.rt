//! The places of a game: worlds with the outcomes of their joint actions, and ends.
use lab_seq::{Few, Seq};

/// The number of a token, in the order of declaration.
#[derive(Clone, Copy, Debug, PartialEq, Eq, PartialOrd, Ord)]
pub struct TokenId(pub u32);

/// The number of a place, a world or an end, in the order of declaration.
#[derive(Clone, Copy, Debug, PartialEq, Eq, PartialOrd, Ord)]
pub struct WorldId(pub u32);

/// The number of an action's name.
#[derive(Clone, Copy, Debug, PartialEq, Eq, PartialOrd, Ord)]
pub struct ActionId(pub u32);

/// Whether what a seat has seen must tell its own actions.
#[derive(Clone, Copy, Debug, PartialEq, Eq)]
pub enum Recall {
    Acts,
    Seen,
}

/// Where a joint action may lead: the next place, the private token of each seat and the public token.
#[derive(Clone, Copy, Debug, PartialEq, Eq)]
pub struct Outcome {
    /// From 1 to 1,048,576; its chance is this over the total of the row.
    pub weight: u32,
    pub next: WorldId,
    pub own1: TokenId,
    pub own2: TokenId,
    pub public: TokenId,
}

/// The outcomes of a joint action.
#[derive(Drop)]
pub struct Row {
    /// The weights together.
    pub total: u64,
    pub outcomes: Few<Outcome>,
}

/// The actions of each seat, and a row for each joint action: by seat 1's action, then by seat 2's.
#[derive(Drop)]
pub struct World {
    pub one: Few<ActionId>,
    pub two: Few<ActionId>,
    pub rows: Seq<Row>,
}

/// A world, or an end with what it pays seat 1.
#[derive(Drop)]
pub enum Place {
    World(World),
    End(i32),
}
