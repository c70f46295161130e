//! How many worlds where a seat has a choice a history passes.

ghost use Rattle.std.specs.Prelude.{
  ◌≡◌,
  ◌<◌,
  ◌≤◌,
  [],
  map,
  length,
  take,
  nat_le,
  slice_index_or,
  if◌then◌else◌,
  IfOk,
};
ghost use Rattle.lab_defs_text.specs.Texts.{place_at};
ghost use Rattle.lab_defs_game.specs.Histories.{histories, actions_at};
ghost use Rattle.lab_defs_game.specs.Sets as sets;
ghost use Rattle.lab_world.specs.Games.{game_model};
ghost use Rattle.lab_world.specs.Seats.{seat_number};
ghost use Rattle.lab_unfold.specs.Values.{history_in};

use crate::History;
use lab_world::{Game, Seat, WorldId};
use std::alloc::{AllocError, Global};

/// The most worlds where a seat has two or more actions that a history passes.
pub fn most_decisions(
    alloc: Global,
    game: &Game,
    items: &[History],
    seat: Seat,
) -> Result<u32, AllocError>
    requires items { items.now ≡ map (history_in (game_model game.now)) (histories (game_model game.now)) }
    ensures value { IfOk result (λ n. n ≡ sets.most_decisions (game_model game.now) (seat_number seat)) }
    ensures small { IfOk result (λ n. n ≤ 32) }
{
    let mut counts = Vec::new(alloc);
    let mut most = 0;
    for _ in 0..items.len() {
        let count = next_count(game, items, counts.as_slice(), seat);
        most = most.max(count);
        counts.push(count)?;
    }
    Ok(most)
}

// The count of the first history that has none yet.
fn next_count(game: &Game, items: &[History], counts: &[u32], seat: Seat) -> u32
    requires items { items.now ≡ map (history_in (game_model game.now)) (histories (game_model game.now)) }
    requires counts { counts.now ≡ map (sets.decisions_from (game_model game.now) (seat_number seat) game.now.root.0)
        (take (length counts.now) (histories (game_model game.now))) }
    requires below { length counts.now < length items.now }
    ensures { result ≡ sets.decisions_from (game_model game.now) (seat_number seat) game.now.root.0
        (slice_index_or (histories (game_model game.now)) (length counts.now) []) }
{
    let history = items[counts.len()];
    let Some(parent) = history.parent else {
        return 0;
    };
    let before = items[parent.0 as usize];
    counts[parent.0 as usize] + decisions_at(game, before.world, seat)
}

// 1 where a seat has two or more actions, else 0.
fn decisions_at(game: &Game, id: WorldId, seat: Seat) -> u32
    ensures value { result
        ≡ (if nat_le 2 (actions_at (seat_number seat) (place_at (game_model game.now) id.0)) then 1 else 0) }
    ensures small { result ≤ 1 }
{
    let Some(world) = game.world(id) else {
        return 0;
    };
    let actions = world.actions(seat.number()).len();
    if actions >= 2 { 1 } else { 0 }
}
