//! The two seats of a game.
ghost use Rattle.std.specs.Prelude.{◌≡◌, ◌⊎◌};
ghost use Rattle.lab_world.specs.Seats.{seat_number};

/// A seat of a game.
#[derive(Clone, Copy)]
pub enum Seat {
    One,
    Two,
}

impl Seat {
    /// The seat with this number, 1 or 2.
    pub fn of(number: u32) -> Seat
        requires { (number ≡ 1) ⊎ (number ≡ 2) }
        ensures { seat_number result ≡ number }
    {
        if number == 1 { Seat::One } else { Seat::Two }
    }

    /// Its number, 1 or 2.
    pub fn number(self) -> u32
        ensures number { result ≡ seat_number self }
        ensures seat { (result ≡ 1) ⊎ (result ≡ 2) }
    {
        match self {
            Seat::One => 1,
            Seat::Two => 2,
        }
    }
}
