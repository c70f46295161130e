//! The parts of a game that the lines so far declare. The last world and the last row stand apart until they are whole.
use lab_lex::NameTable;
use lab_seq::Few;
use lab_world::{PartOutcome, PartPlace, PartRow, Recall};

/// A row whose outcomes are being read.
#[derive(Drop)]
pub struct OpenRow<'a> {
    pub line: u32,
    pub first: &'a str,
    pub second: &'a str,
    pub outcomes: Vec<PartOutcome<&'a str>>,
}

/// A world whose rows are being read, without the last one. Its name is the last one of `Draft::names`.
#[derive(Drop)]
pub struct OpenWorld<'a> {
    pub line: u32,
    pub one: Few<&'a str>,
    pub two: Few<&'a str>,
    pub rows: Vec<PartRow<&'a str>>,
}

/// All that the lines so far declare. Its names stand in the text.
#[derive(Drop)]
pub struct Draft<'a> {
    pub grid: u32,
    pub horizon: u32,
    pub recall: Recall,
    pub tokens: NameTable,
    /// The names of the places, and behind them that of the open world while there is one.
    pub names: NameTable,
    /// The places that are whole.
    pub places: Vec<PartPlace<&'a str>>,
    pub open_world: OpenWorld<'a>,
    pub open_row: OpenRow<'a>,
    pub root: &'a str,
    pub root_line: u32,
}
