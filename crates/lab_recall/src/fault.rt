//! Why a game has no perfect recall.

ghost use Rattle.std.specs.Prelude.{◌≡◌};
ghost use Rattle.lab_recall.specs.declared.fault.RecallFault.TheVariants.{Memory};

use lab_unfold::HistoryId;
use std::alloc::AllocError;

/// Why the information sets of a game do not fit.
#[derive(Clone, Copy, Debug, PartialEq, Eq)]
pub enum RecallFault {
    /// In an information set of the seat, 1 or 2, the names of its actions differ. `second` is the least history whose names are
    /// not those of an earlier one of its set, and `first` is the first history of this set.
    LegalDiffers {
        seat: u32,
        first: HistoryId,
        second: HistoryId,
    },
    /// The tokens that the seat, 1 or 2, has seen do not tell its own actions, as they have to. `second` is the least history where
    /// an earlier one has the same tokens and other own actions, and `first` is the first of these.
    Forgotten {
        seat: u32,
        first: HistoryId,
        second: HistoryId,
    },
    Memory,
}

impl From<AllocError> for RecallFault {
    ghost from_gives = { λ _ e. e ≡ Memory };

    fn from(_fault: AllocError) -> RecallFault {
        RecallFault::Memory
    }
}
