//! What stands in a form.

use lab_units::Worth;

/// The number of an information set of a seat in a form, counted from 0.
#[derive(Clone, Copy, Debug, PartialEq, Eq, PartialOrd, Ord)]
pub struct SetId(pub u32);

/// The information sets of a seat from the number `from` up to and without `to`.
#[derive(Clone, Copy, Debug, PartialEq, Eq)]
pub struct Span {
    pub from: u32,
    pub to: u32,
}

/// An information set of a seat.
#[derive(Clone, Copy, Debug, PartialEq, Eq)]
pub struct FormSet {
    /// The set and the action there that this set follows; none where it follows none.
    pub parent: Option<(SetId, u32)>,
    /// How many actions the seat has; a set with one is a pass.
    pub actions: u32,
    /// The place of its first weight among those of the seat's deciding sets.
    pub first_weight: u32,
}

/// A row: a way in which a play may end.
#[derive(Clone, Copy, Debug, PartialEq, Eq)]
pub struct FormRow {
    /// What it pays seat 1, with chance and any weights before the form in it.
    pub worth: Worth,
    /// The last set of each seat with the action there; none where the seat has no set on the row.
    pub last: [Option<(SetId, u32)>; 2],
    /// How many factors of the grid each seat still brings.
    pub pads: [u32; 2],
}
