//! From the histories of a game to whether it has perfect recall.

ghost use Rattle.std.specs.Prelude.{◌≡◌, None, OnOk, IfErr};
ghost use Rattle.lab_defs_text.specs.Games.{by_seen};
ghost use Rattle.lab_defs_game.specs.Laws.{Remembers};
ghost use Rattle.lab_defs_game.specs.Recall.{recall_fault};
ghost use Rattle.lab_world.specs.Games.{game_model};
ghost use Rattle.lab_world.specs.Models.{recall_model};
ghost use Rattle.lab_unfold.specs.Values.{unfolded};
ghost use Rattle.lab_recall.specs.Faults.{IsFault, IsForgotten};

use super::memory::check_memory;
use super::names::check_names;
use crate::RecallFault;
use lab_unfold::Histories;
use lab_world::{Game, Recall, Seat};
use std::alloc::Global;

/// Checks that at the histories of each information set the actions have the same names, seat 1's sets first. Where what a seat has
/// seen has to tell its own actions, it then checks that its tokens do, for seat 1 first.
pub fn check_sets(alloc: Global, game: &Game, histories: &Histories) -> Result<(), RecallFault>
    requires unfolded { histories.now ≡ unfolded (game_model game.now) }
    ensures none { OnOk result (recall_fault (game_model game.now) ≡ None) }
    ensures fault { IfErr result (λ e. IsFault (game_model game.now) e) }
{
    check_names(game, histories, Seat::One)?;
    check_names(game, histories, Seat::Two)?;
    check_memories(alloc, game, histories)?;
    Ok(())
}

// Checks that the tokens of each seat tell its own actions, if they have to.
fn check_memories(alloc: Global, game: &Game, histories: &Histories) -> Result<(), RecallFault>
    requires unfolded { histories.now ≡ unfolded (game_model game.now) }
    ensures none { OnOk result (recall_model game.now.recall ≡ by_seen → Remembers (game_model game.now) 1 × Remembers (game_model game.now) 2) }
    ensures fault { IfErr result (λ e. IsForgotten (game_model game.now) e) }
{
    if game.recall == Recall::Acts {
        return Ok(());
    }
    check_memory(alloc, game, histories, Seat::One)?;
    check_memory(alloc, game, histories, Seat::Two)
}
