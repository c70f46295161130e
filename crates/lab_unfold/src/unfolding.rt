//! From a game to its histories.

ghost use Rattle.std.specs.Prelude.{◌≡◌, ◌≤◌, None, map, length, IfOk, IfErr, OnOk};
ghost use Rattle.lab_defs_game.specs.Histories.{histories};
ghost use Rattle.lab_defs_game.specs.Unfolding.{unfold_fault};
ghost use Rattle.lab_world.specs.Games.{game_model};
ghost use Rattle.lab_unfold.specs.Values.{history_in, scale_in, unfolded};
ghost use Rattle.lab_unfold.specs.Faults.{IsFault};

use super::chances::chances;
use super::levels::{Levels, all_histories, open_world};
use super::payoffs::payoffs;
use super::seen::first_histories;
use super::sizes::scale_within;
use crate::{Histories, History, Scale, UnfoldFault};
use lab_world::Game;
use std::alloc::{AllocError, Global};

/// The histories of a game, unless they are too many, do not end within the horizon, or make numbers that are too great.
pub fn unfold(alloc: Global, game: &Game) -> Result<Histories, UnfoldFault>
    ensures value { IfOk result (λ h. h ≡ unfolded (game_model game.now)) }
    ensures none { OnOk result (unfold_fault (game_model game.now) ≡ None) }
    ensures fault { IfErr result (λ e. IsFault (game_model game.now) e) }
{
    let Levels { items, last } = all_histories(alloc, game)?;
    if let Some(history_world) = open_world(game, &items[last..]) {
        return Err(UnfoldFault::HorizonPassed { history_world });
    }
    let scale = scale_within(alloc, game, items.as_slice())?;
    let Ok(histories) = completed(alloc, game, items, scale) else {
        return Err(UnfoldFault::Memory);
    };
    Ok(histories)
}

// The histories with the chance, the payoff and the first histories of each.
fn completed(
    alloc: Global,
    game: &Game,
    items: Vec<History>,
    scale: Scale,
) -> Result<Histories, AllocError>
    requires items { items.items ≡ map (history_in (game_model game.now)) (histories (game_model game.now)) }
    requires few { length items.items ≤ 65536 }
    requires scale { scale ≡ scale_in (game_model game.now) }
    ensures { IfOk result (λ h. h ≡ unfolded (game_model game.now)) }
{
    let chances = chances(alloc, game, items.as_slice(), scale.k)?;
    let payoffs = payoffs(alloc, game, items.as_slice())?;
    let firsts = first_histories(alloc, game, items.as_slice())?;
    Ok(Histories::new(items, chances, payoffs, firsts, scale))
}
