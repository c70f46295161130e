//! Why an input is answered no further.
ghost use Rattle.std.specs.Prelude.{◌≡◌};
ghost use Rattle.lab_input.specs.declared.stop.Stop.TheVariants.{Memory};

use crate::refusals::Rejection;
use std::alloc::AllocError;

/// Why an input is answered no further.
#[derive(Drop)]
pub enum Stop {
    /// It is refused.
    Refused(Rejection),
    /// The source failed.
    ReadFault,
    /// The sink failed.
    WriteFault,
    /// No memory was left.
    Memory,
}

impl From<AllocError> for Stop {
    ghost from_gives = { λ _ e. e ≡ Memory };

    fn from(_: AllocError) -> Stop {
        Stop::Memory
    }
}
