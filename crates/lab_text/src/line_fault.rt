//! Why a line may not stand where it does.
ghost use Rattle.std.specs.Prelude.{◌≡◌};
ghost use Rattle.lab_text.specs.declared.line_fault.LineFault.TheVariants.{Lex, Memory};

use lab_lex::{LexFault, NoMemory};
use std::alloc::{AllocError, AllocFailed};

/// The first fault of a line. The words of a line count from 1.
#[derive(Clone, Copy, Debug, PartialEq, Eq)]
pub enum LineFault {
    /// A word is wrong in itself.
    Lex(LexFault),
    /// A word is not one that may stand here, or is missing, or is one too many.
    BadWord { place: u32 },
    /// A name is declared again.
    Twice { place: u32 },
    /// No memory was left.
    Memory,
}

impl From<LexFault> for LineFault {
    ghost from_gives = { λ f e. e ≡ Lex f };

    fn from(fault: LexFault) -> LineFault {
        LineFault::Lex(fault)
    }
}

impl From<NoMemory> for LineFault {
    ghost from_gives = { λ _ e. e ≡ Memory };

    fn from(_fault: NoMemory) -> LineFault {
        LineFault::Memory
    }
}

impl From<AllocError> for LineFault {
    ghost from_gives = { λ _ e. e ≡ Memory };

    fn from(_fault: AllocError) -> LineFault {
        LineFault::Memory
    }
}

impl<T: Drop> From<AllocFailed<T>> for LineFault {
    ghost from_gives = { λ _ e. e ≡ Memory };

    fn from(_fault: AllocFailed<T>) -> LineFault {
        LineFault::Memory
    }
}
