//! What a session keeps of each seat.

ghost use Rattle.std.specs.Prelude.{◌≡◌, ◌==◌, if◌then◌else◌};

use lab_bounds::BoundTable;
use lab_table::Table;

/// A seat's strategy, and the bounds on what it can lose.
#[derive(Drop)]
pub struct Side {
    pub table: Table,
    pub bounds: BoundTable,
}

/// Those of both seats.
#[derive(Drop)]
pub struct Sides {
    pub one: Side,
    pub two: Side,
}
