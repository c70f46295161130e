//! Why there is no session on a game.

use lab_recall::RecallFault;
use lab_unfold::UnfoldFault;
use lab_world::{Game, WorldId};

/// Why there is no session on a game, which is handed back unless memory is short.
#[derive(Drop)]
pub enum StartFault {
    Unfold {
        game: Game,
        fault: UnfoldFault,
    },
    /// The worlds where the two histories of the fault lead.
    Recall {
        game: Game,
        fault: RecallFault,
        first: WorldId,
        second: WorldId,
    },
    Memory,
}
