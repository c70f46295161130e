//! The chances of histories.

ghost use Rattle.std.specs.Prelude.{
  ◌≡◌,
  ◌<◌,
  ◌≤◌,
  ◌*◌,
  ◌/◌,
  [],
  Some,
  map,
  length,
  take,
  slice_index_or,
  IfOk,
};
ghost use Rattle.lab_defs_text.specs.Texts.{place_at};
ghost use Rattle.lab_defs_game.specs.Chance as model;
ghost use Rattle.lab_defs_game.specs.Histories.{histories, row_of, outcome_of};
ghost use Rattle.lab_defs_game.specs.Laws.{IsStep};
ghost use Rattle.lab_world.specs.Games.{game_model};
ghost use Rattle.lab_unfold.specs.Values.{history_in, step_model};

use crate::{History, Step};
use lab_world::{Game, WorldId};
use std::alloc::{AllocError, Global};

/// The chance of each history over the scale, with the chance units of all later steps.
pub fn chances(
    alloc: Global,
    game: &Game,
    items: &[History],
    scale: u128,
) -> Result<Vec<u128>, AllocError>
    requires items { items.now ≡ map (history_in (game_model game.now)) (histories (game_model game.now)) }
    requires scale { scale ≡ model.scale (game_model game.now) }
    ensures { IfOk result (λ c. c.items
        ≡ map (model.chance (game_model game.now)) (histories (game_model game.now))) }
{
    let mut chances = Vec::new(alloc);
    for _ in 0..items.len() {
        let chance = next_chance(game, items, chances.as_slice(), scale);
        chances.push(chance)?;
    }
    Ok(chances)
}

// The chance of the first history that has none yet.
fn next_chance(game: &Game, items: &[History], chances: &[u128], scale: u128) -> u128
    requires items { items.now ≡ map (history_in (game_model game.now)) (histories (game_model game.now)) }
    requires scale { scale ≡ model.scale (game_model game.now) }
    requires chances { chances.now ≡ map (model.chance (game_model game.now))
        (take (length chances.now) (histories (game_model game.now))) }
    requires below { length chances.now < length items.now }
    ensures { result ≡ model.chance (game_model game.now)
        (slice_index_or (histories (game_model game.now)) (length chances.now) []) }
{
    let history = items[chances.len()];
    let (Some(parent), Some(step)) = (history.parent, history.step) else {
        return scale;
    };
    let before = items[parent.0 as usize];
    share(game, before.world, step, chances[parent.0 as usize])
}

// What is left of a chance after a step: as much as the weight of its outcome is of its row's total.
fn share(game: &Game, id: WorldId, step: Step, chance: u128) -> u128
    requires { IsStep (place_at (game_model game.now) id.0) (step_model step) }
    ensures { result ≡ chance / model.row_total (row_of (place_at (game_model game.now) id.0) step.place1 step.place2)
        * (outcome_of (game_model game.now) id.0 (step_model step)).weight }
{
    let Some(world) = game.world(id) else {
        unreachable!();
    };
    let row = world.row(step.place1 as usize, step.place2 as usize);
    let outcome = row.outcomes.as_slice()[step.outcome as usize];
    part(chance, row.total, outcome.weight)
}

// A number divided by a total, times a weight that is no greater.
fn part(number: u128, total: u64, weight: u32) -> u128
    requires some { 0 < total }
    requires weight { weight ≤ total }
    ensures { result ≡ number / total * weight }
{
    number / total as u128 * weight as u128
}
