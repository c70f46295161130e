//! Games that can be played, with their histories.
ghost use Rattle.std.specs.Prelude.{◌≡◌, ◌<◌, ◌^◌, length, None, IfOk, OnOk, IfErr, IfSome, IfNone};
ghost use Rattle.lab_defs_game.specs.Histories.{histories as histories_of};
ghost use Rattle.lab_defs_game.specs.Unfolding.{unfold_fault};
ghost use Rattle.lab_defs_game.specs.Recall.{recall_fault};
ghost use Rattle.lab_defs_report.specs.GameModes.{accepted_at, playable as playable_game};
ghost use Rattle.lab_defs_game.specs.Accepted.{IsAccepted};
ghost use Rattle.lab_world.specs.Games.{game_model};
ghost use Rattle.lab_unfold.specs.Values.{unfolded};
ghost use Rattle.lab_recall.specs.Faults as recall;
ghost use Rattle.lab_session.specs.Sessions.{AreWorlds, world_of};
ghost use Rattle.lab_input.specs.Stops.{Denies, Gives, RefusesRecall};

use crate::game_faults::{refused_recall, refused_unfolding};
use crate::stop::Stop;
use crate::text_faults::game_of;
use lab_recall::{RecallFault, check_sets};
use lab_unfold::{Histories, HistoryId, unfold};
use lab_world::{Game, WorldId};
use std::alloc::Global;

/// A game that unfolds and has perfect recall, with its histories.
#[derive(Drop)]
pub struct Playable {
    pub game: Game,
    pub histories: Histories,
    ghost unfolded: { histories ≡ unfolded (game_model game) },
    ghost accepted: { IsAccepted (game_model game) },
}

/// The game of a text whose last line has the number `done`, or the refusal of its first fault.
pub fn played_game(alloc: Global, text: &[u8], done: u32) -> Result<Playable, Stop>
    requires { length text.now < 2 ^ 32 }
    ensures { Gives (λ p. game_model p.game) (playable_game text.now done) result }
{
    let game = game_of(alloc, text)?;
    let histories = unfolded_game(alloc, &game, done)?;
    check_recall(alloc, &game, &histories, done)?;
    Ok(Playable { game, histories })
}

// The histories of a game, or the refusal of a game that does not unfold.
fn unfolded_game(alloc: Global, game: &Game, done: u32) -> Result<Histories, Stop>
    ensures unfolded { IfOk result (λ h. h ≡ unfolded (game_model game.now)) }
    ensures unfolds { OnOk result (unfold_fault (game_model game.now) ≡ None) }
    ensures refused { IfErr result (λ s. Denies (accepted_at done (game_model game.now)) s) }
{
    match unfold(alloc, game) {
        Ok(histories) => Ok(histories),
        Err(fault) => Err(refused_unfolding(alloc, game, done, fault)),
    }
}

// Refuses a game without perfect recall.
fn check_recall(alloc: Global, game: &Game, histories: &Histories, done: u32) -> Result<(), Stop>
    requires unfolded { histories.now ≡ unfolded (game_model game.now) }
    requires unfolds { unfold_fault (game_model game.now) ≡ None }
    ensures recalls { OnOk result (recall_fault (game_model game.now) ≡ None) }
    ensures refused { IfErr result (λ s. Denies (accepted_at done (game_model game.now)) s) }
{
    match check_sets(alloc, game, histories) {
        Ok(()) => Ok(()),
        Err(fault) => Err(refused_sets(alloc, game, histories, done, fault)),
    }
}

// The refusal of a game whose histories show that it has no perfect recall.
fn refused_sets(
    alloc: Global,
    game: &Game,
    histories: &Histories,
    line: u32,
    fault: RecallFault,
) -> Stop
    requires unfolded { histories.now ≡ unfolded (game_model game.now) }
    requires fault { recall.IsFault (game_model game.now) fault }
    ensures { RefusesRecall (game_model game.now) line (recall.fault_in fault) result }
{
    match worlds(game, histories, fault) {
        Some((first, second)) => refused_recall(alloc, game, line, fault, first, second),
        None => Stop::Memory,
    }
}

// The worlds where the two histories of a fault lead; none for want of memory.
fn worlds(game: &Game, histories: &Histories, fault: RecallFault) -> Option<(WorldId, WorldId)>
    requires unfolded { histories.now ≡ unfolded (game_model game.now) }
    requires fault { recall.IsFault (game_model game.now) fault }
    ensures worlds { IfSome result (λ w. AreWorlds (game_model game.now) fault w.0.0 w.1.0) }
    ensures none { IfNone result (recall.fault_in fault ≡ None) }
{
    match fault {
        RecallFault::LegalDiffers { first, second, .. } => Some((
            world(game, histories, first),
            world(game, histories, second),
        )),
        RecallFault::Forgotten { first, second, .. } => Some((
            world(game, histories, first),
            world(game, histories, second),
        )),
        RecallFault::Memory => None,
    }
}

// The world where a history leads.
fn world(game: &Game, histories: &Histories, id: HistoryId) -> WorldId
    requires unfolded { histories.now ≡ unfolded (game_model game.now) }
    requires there { id.0 < length (histories_of (game_model game.now)) }
    ensures { result.0 ≡ world_of (game_model game.now) id.0 }
{
    let _ = game;
    histories.item(id).world
}
