//! What histories pay, and the greatest payoff.

ghost use Rattle.std.specs.Prelude.{◌≡◌, map, IfOk};
ghost use Rattle.lab_defs_game.specs.Histories as model;
ghost use Rattle.lab_defs_game.specs.Unfolding as faults;
ghost use Rattle.lab_world.specs.Games.{game_model};
ghost use Rattle.lab_unfold.specs.Values.{history_in};

use crate::History;
use lab_world::Game;
use std::alloc::{AllocError, Global};

/// The greatest absolute payoff of an end that a history reaches.
pub fn top_payoff(game: &Game, items: &[History]) -> u32
    requires { items.now ≡ map (history_in (game_model game.now)) (model.histories (game_model game.now)) }
    ensures { result ≡ faults.top_payoff (game_model game.now) }
{
    let mut top = 0;
    for history in items {
        top = top.max(game.payoff(history.world).unsigned_abs());
    }
    top
}

/// What each history pays seat 1; 0 where it is not terminal.
pub fn payoffs(alloc: Global, game: &Game, items: &[History]) -> Result<Vec<i32>, AllocError>
    requires { items.now ≡ map (history_in (game_model game.now)) (model.histories (game_model game.now)) }
    ensures { IfOk result (λ p. p.items
        ≡ map (model.payoff (game_model game.now)) (model.histories (game_model game.now))) }
{
    let mut payoffs = Vec::with_capacity(alloc, items.len())?;
    for history in items {
        payoffs.push(game.payoff(history.world))?;
    }
    Ok(payoffs)
}
