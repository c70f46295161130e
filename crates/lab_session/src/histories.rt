//! From a game to its histories, or why it has no session.

ghost use Rattle.std.specs.Prelude.{◌≡◌, ◌<◌, None, length, IsSome, IfSome, IfNone, OnOk, IfOk, IfErr};
ghost use Rattle.lab_defs_game.specs.Histories.{histories as histories_of};
ghost use Rattle.lab_defs_game.specs.Recall.{recall_fault};
ghost use Rattle.lab_defs_game.specs.Unfolding.{unfold_fault};
ghost use Rattle.lab_world.specs.Games.{game_model};
ghost use Rattle.lab_unfold.specs.Faults as unfolds;
ghost use Rattle.lab_unfold.specs.Values.{unfolded};
ghost use Rattle.lab_recall.specs.Faults as recalls;
ghost use Rattle.lab_session.specs.Sessions.{IsStartFault, AreWorlds, world_of};

use crate::StartFault;
use lab_recall::RecallFault;
use lab_unfold::{Histories, HistoryId, UnfoldFault};
use lab_world::{Game, WorldId};

/// Why there is no session on a game that does not unfold.
pub fn no_histories(game: Game, fault: UnfoldFault) -> StartFault
    requires { unfolds.IsFault (game_model game) fault }
    ensures { IsStartFault game result }
{
    match fault {
        UnfoldFault::Memory => StartFault::Memory,
        fault => StartFault::Unfold { game, fault },
    }
}

/// Why there is none on a game without perfect recall.
pub fn no_recall(game: Game, histories: &Histories, fault: RecallFault) -> StartFault
    requires unfolded { histories.now ≡ unfolded (game_model game) }
    requires unfolds { unfold_fault (game_model game) ≡ None }
    requires fault { recalls.IsFault (game_model game) fault }
    ensures { IsStartFault game result }
{
    match worlds(&game, histories, fault) {
        Some((first, second)) => StartFault::Recall {
            game,
            fault,
            first,
            second,
        },
        None => StartFault::Memory,
    }
}

// The worlds where the two histories of a fault lead; none for want of memory.
fn worlds(game: &Game, histories: &Histories, fault: RecallFault) -> Option<(WorldId, WorldId)>
    requires unfolded { histories.now ≡ unfolded (game_model game.now) }
    requires fault { recalls.IsFault (game_model game.now) fault }
    ensures fault { IfSome result (λ w. IsSome (recalls.fault_in fault)) }
    ensures worlds { IfSome result (λ w. AreWorlds (game_model game.now) fault w.0.0 w.1.0) }
{
    match fault {
        RecallFault::LegalDiffers { first, second, .. } => Some((
            world(game, histories, first),
            world(game, histories, second),
        )),
        RecallFault::Forgotten { first, second, .. } => Some((
            world(game, histories, first),
            world(game, histories, second),
        )),
        RecallFault::Memory => None,
    }
}

// The world where a history leads.
fn world(game: &Game, histories: &Histories, id: HistoryId) -> WorldId
    requires unfolded { histories.now ≡ unfolded (game_model game.now) }
    requires there { id.0 < length (histories_of (game_model game.now)) }
    ensures { result.0 ≡ world_of (game_model game.now) id.0 }
{
    let _ = game;
    histories.item(id).world
}
