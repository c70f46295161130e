//! The two seats.

ghost use Rattle.std.specs.Prelude.{◌≡◌};
ghost use Rattle.lab_defs_game.specs.Seats.{other};

/// The other one of seats 1 and 2.
pub fn other(seat: u32) -> u32
    ensures { result ≡ other seat }
{
    if seat == 1 { 2 } else { 1 }
}
