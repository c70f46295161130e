//! Rows: the chance and payoff of each terminal history, and its last sets.

ghost use Rattle.std.specs.Prelude.{
  ◌≡◌,
  ◌<◌,
  ◌≤◌,
  ◌*ℤ◌,
  ◌^◌,
  pos,
  [],
  ◌∷◌,
  true,
  map,
  length,
  slice_index_or,
  if◌then◌else◌,
  ◌==◌,
  IfOk,
};
ghost use Rattle.std.specs.Int.RustNames.{unsigned_abs};
ghost use Rattle.lab_defs_game.specs.Keys.{number_of};
ghost use Rattle.lab_defs_game.specs.Histories as model;
ghost use Rattle.lab_defs_game.specs.Chance.{chance};
ghost use Rattle.lab_defs_game.specs.Sets.{set_number, seen};
ghost use Rattle.lab_defs_game.specs.Unfolding.{unfold_fault};
ghost use Rattle.lab_world.specs.Games.{game_model};
ghost use Rattle.lab_world.specs.Seats.{seat_number};
ghost use Rattle.lab_unfold.specs.Values.{unfolded};
ghost use Rattle.lab_tree.specs.Trees.{set_id, set_at, row_cmp, last_in, row_in};
ghost use Rattle.lab_tree.specs.Ends.{end_in};
ghost use Rattle.lab_defs_game.specs.Nodes.{ends_by_nodes};

use super::end::End;
use crate::{RowId, RowInfo};
use lab_form::SetId;
use lab_unfold::{Histories, HistoryId, Step};
use lab_units::Worth;
use lab_world::{Game, Seat};
use std::alloc::{AllocError, Global};

/// The rows of a game, from its terminal histories by their nodes and the sets of each seat's histories.
pub fn row_infos(
    alloc: Global,
    game: &Game,
    items: &Histories,
    ends: &[End],
    one: &[Option<SetId>],
    two: &[Option<SetId>],
) -> Result<Vec<RowInfo>, AllocError>
    requires unfolded { items.now ≡ unfolded (game_model game.now) }
    requires accepted { unfold_fault (game_model game.now) ≡ None }
    requires ends { ends.now ≡ map (end_in (game_model game.now)) (ends_by_nodes (game_model game.now)) }
    requires one { one.now ≡ map (set_at (game_model game.now) 1) (model.histories (game_model game.now)) }
    requires two { two.now ≡ map (set_at (game_model game.now) 2) (model.histories (game_model game.now)) }
    ensures { IfOk result (λ r. r.items
        ≡ map (row_in (game_model game.now)) (ends_by_nodes (game_model game.now))) }
{
    let mut rows = Vec::new(alloc);
    for number in 0..ends.len() {
        rows.push(row_info(game, items, ends, number, one, two))?;
    }
    Ok(rows)
}

// The row with a number.
fn row_info(
    game: &Game,
    items: &Histories,
    ends: &[End],
    number: usize,
    one: &[Option<SetId>],
    two: &[Option<SetId>],
) -> RowInfo
    requires unfolded { items.now ≡ unfolded (game_model game.now) }
    requires accepted { unfold_fault (game_model game.now) ≡ None }
    requires ends { ends.now ≡ map (end_in (game_model game.now)) (ends_by_nodes (game_model game.now)) }
    requires one { one.now ≡ map (set_at (game_model game.now) 1) (model.histories (game_model game.now)) }
    requires two { two.now ≡ map (set_at (game_model game.now) 2) (model.histories (game_model game.now)) }
    requires there { number < length ends.now }
    ensures { result
        ≡ row_in (game_model game.now) (slice_index_or (ends_by_nodes (game_model game.now)) number []) }
{
    let history = HistoryId(ends[number].history);
    RowInfo {
        id: RowId(number as u32),
        history,
        worth: worth(game, items, history),
        last: [
            last_set(game, items, history, Seat::One, one),
            last_set(game, items, history, Seat::Two, two),
        ],
    }
}

// The last set of a seat on a terminal history, with the action there.
fn last_set(
    game: &Game,
    items: &Histories,
    id: HistoryId,
    seat: Seat,
    sets: &[Option<SetId>],
) -> (SetId, u32)
    requires unfolded { items.now ≡ unfolded (game_model game.now) }
    requires sets { sets.now ≡ map (set_at (game_model game.now) (seat_number seat)) (model.histories (game_model game.now)) }
    requires there { id.0 < length items.now.items }
    requires terminal { model.is_terminal (game_model game.now) (slice_index_or (model.histories (game_model game.now)) id.0 []) ≡ true }
    ensures { result
        ≡ last_in (game_model game.now) (seat_number seat) (slice_index_or (model.histories (game_model game.now)) id.0 []) }
{
    let history = items.item(id);
    let Some(parent) = history.parent else {
        unreachable!();
    };
    let Some(step) = history.step else {
        unreachable!();
    };
    let Some(set) = sets[parent.0 as usize] else {
        unreachable!();
    };
    (set, action_of(seat, step))
}

// The place of a seat's action in a step.
fn action_of(seat: Seat, step: Step) -> u32
    ensures { result ≡ (if seat_number seat == 1 then step.place1 else step.place2) }
{
    match seat {
        Seat::One => step.place1,
        Seat::Two => step.place2,
    }
}

// What a terminal history is worth: its chance times what it pays.
fn worth(game: &Game, items: &Histories, id: HistoryId) -> Worth
    requires unfolded { items.now ≡ unfolded (game_model game.now) }
    requires accepted { unfold_fault (game_model game.now) ≡ None }
    requires there { id.0 < length items.now.items }
    requires terminal { model.is_terminal (game_model game.now) (slice_index_or (model.histories (game_model game.now)) id.0 []) ≡ true }
    ensures { result.0
        ≡ pos (chance (game_model game.now) (slice_index_or (model.histories (game_model game.now)) id.0 []))
        *ℤ model.payoff (game_model game.now) (slice_index_or (model.histories (game_model game.now)) id.0 []) }
{
    product(items.chance(id), items.payoff(id))
}

// A chance times a payoff.
fn product(chance: u128, payoff: i32) -> Worth
    requires { chance ≤ 2 ^ 64 }
    ensures { result.0 ≡ pos chance *ℤ payoff }
{
    Worth(chance as i128 * payoff as i128)
}
