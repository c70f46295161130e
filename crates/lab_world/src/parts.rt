//! The parts of a game by names, as a text lists them, with the lines where they stand. A name is a `String`, or a `&str` that stands in the text.
ghost use Rattle.std.specs.Prelude.{◌≡◌};
ghost use Rattle.lab_world.specs.declared.parts.AssembleFault.TheVariants.{Memory};

use super::place::Recall;
use lab_lex::{NameTable, NoMemory};
use lab_seq::{Few, Seq};
use std::alloc::{AllocError, AllocFailed};

/// An outcome by names, with its line.
#[derive(Drop)]
pub struct PartOutcome<T = String> {
    pub line: u32,
    /// From 1 to 1,048,576.
    pub weight: u32,
    pub next: T,
    pub own1: T,
    pub own2: T,
    pub public: T,
}

/// A row by the names of its actions, with its line.
#[derive(Drop)]
pub struct PartRow<T = String> {
    pub line: u32,
    pub first: T,
    pub second: T,
    pub outcomes: Few<PartOutcome<T>>,
}

/// A world with its rows as they were listed, or an end with what it pays seat 1. Its name stands in `Parts::names`.
#[derive(Drop)]
pub enum PartPlace<T = String> {
    World {
        line: u32,
        one: Few<T>,
        two: Few<T>,
        rows: Seq<PartRow<T>>,
    },
    End {
        line: u32,
        payoff: i32,
    },
}

/// All that a text declares of a game, by names.
#[derive(Drop)]
pub struct Parts<T = String> {
    pub grid: u32,
    pub horizon: u32,
    pub recall: Recall,
    pub tokens: NameTable,
    /// The names of the places, in their order.
    pub names: NameTable,
    pub places: Seq<PartPlace<T>>,
    pub root: T,
    pub root_line: u32,
}

/// Why parts make no game. Lines are those of the parts; places count the words of a line from 1.
#[derive(Clone, Copy, Debug, PartialEq, Eq)]
pub enum AssembleFault {
    /// A world or token that is not declared.
    UnknownName { line: u32, place: u32 },
    /// A row with an action that is not legal in its world, or for a joint action that has a row already.
    ExtraRow { line: u32 },
    /// A world with a joint action that has no row: the first one, by the places of its actions.
    MissingRow { line: u32, first: u32, second: u32 },
    /// The root is an end.
    NoRoot { line: u32 },
    /// No memory was left.
    Memory,
}

impl From<NoMemory> for AssembleFault {
    ghost from_gives = { λ _ e. e ≡ Memory };

    fn from(_fault: NoMemory) -> AssembleFault {
        AssembleFault::Memory
    }
}

impl From<AllocError> for AssembleFault {
    ghost from_gives = { λ _ e. e ≡ Memory };

    fn from(_fault: AllocError) -> AssembleFault {
        AssembleFault::Memory
    }
}

impl<T: Drop> From<AllocFailed<T>> for AssembleFault {
    ghost from_gives = { λ _ e. e ≡ Memory };

    fn from(_fault: AllocFailed<T>) -> AssembleFault {
        AssembleFault::Memory
    }
}
