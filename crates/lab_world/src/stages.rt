//! What places are on the way from parts to a game: first outcomes become numbers, then rows get their joint actions, then they stand in order, and at last actions become numbers.
use super::parts::AssembleFault;
use super::place::{Outcome, Place, Row};
use super::row_numbers::RowNumbers;
use lab_lex::NameTable;
use lab_seq::{Few, Seq};

/// A row whose outcomes are known by numbers.
#[derive(Drop)]
pub struct KnownRow<'a> {
    pub line: u32,
    pub first: &'a str,
    pub second: &'a str,
    pub outcomes: Few<Outcome>,
}

/// A place whose outcomes are known by numbers.
#[derive(Drop)]
pub enum KnownPlace<'a> {
    World {
        line: u32,
        one: Few<&'a str>,
        two: Few<&'a str>,
        rows: Vec<KnownRow<'a>>,
    },
    End(i32),
}

/// The numbers of joint actions, each once, and beside them the row of each.
#[derive(Drop)]
pub struct PlacedRows {
    pub numbers: RowNumbers,
    pub rows: Vec<Row>,
}

/// A place whose rows have their joint actions.
#[derive(Drop)]
pub enum PlacedPlace<'a> {
    World {
        line: u32,
        one: Few<&'a str>,
        two: Few<&'a str>,
        rows: PlacedRows,
    },
    End(i32),
}

/// A place with a row for each joint action, in order, and names for its actions.
#[derive(Drop)]
pub enum OrderedPlace<'a> {
    World {
        one: Few<&'a str>,
        two: Few<&'a str>,
        rows: Seq<Row>,
    },
    End(i32),
}

/// Places with their actions by numbers, and the names of these.
#[derive(Drop)]
pub struct NumberedPlaces {
    pub actions: NameTable,
    pub places: Vec<Place>,
}

/// What is made of the places so far.
#[derive(Drop)]
pub struct MadePlaces {
    /// The places, while no row is at fault.
    pub numbered: NumberedPlaces,
    /// The first row that is one too many. It is a fault before any joint action that has no row.
    pub extra: Option<AssembleFault>,
    /// The first joint action that has no row.
    pub missing: Option<AssembleFault>,
}

/// Places with the names of their actions, and the number of the root, a world.
#[derive(Drop)]
pub struct RootedPlaces {
    pub numbered: NumberedPlaces,
    pub root: u32,
}
