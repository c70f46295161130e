//! What was seen along a history, from its last step back.

ghost use Rattle.std.specs.Prelude.{◌≡◌, ◌<◌, [], length, map, IfOk, IfSome, IfNone};
ghost use Rattle.lab_defs_game.specs.Sets.{seen, public_list};
ghost use Rattle.lab_world.specs.Games.{game_model};
ghost use Rattle.lab_world.specs.Seats.{seat_number};
ghost use Rattle.lab_unfold.specs.Values.{unfolded};
ghost use Rattle.lab_unfold.specs.Items.{item_model};
ghost use Rattle.lab_unfold.specs.Parents.{history_at};
ghost use Rattle.lab_tree.specs.Behind.{IsBehind};

use lab_unfold::{Histories, HistoryId, Item, last_seen};
use lab_world::{Game, Seat};
use std::alloc::{AllocError, Global};

/// The history without the last step, and what a seat sees of that step; none where there is no step.
pub fn step_behind(
    game: &Game,
    histories: &Histories,
    seat: Seat,
    id: HistoryId,
) -> Option<(HistoryId, Item)>
    requires unfolded { histories.now ≡ unfolded (game_model game.now) }
    requires there { id.0 < length histories.now.items }
    ensures some { IfSome result (λ r. IsBehind (game_model game.now) (seat_number seat) id.0 r.0.0 (item_model r.1)) }
    ensures none { IfNone result (history_at (game_model game.now) id.0 ≡ []) }
{
    match (
        histories.item(id).parent,
        last_seen(game, histories, seat.number(), id),
    ) {
        (Some(before), Some(item)) => Some((before, item)),
        _ => None,
    }
}

/// What a seat has seen along a history, the first step first.
pub fn seen_along(
    alloc: Global,
    game: &Game,
    histories: &Histories,
    seat: Seat,
    id: HistoryId,
) -> Result<Vec<Item>, AllocError>
    requires unfolded { histories.now ≡ unfolded (game_model game.now) }
    requires there { id.0 < length histories.now.items }
    ensures { IfOk result (λ v. map item_model v.items
        ≡ seen (game_model game.now) (seat_number seat) (history_at (game_model game.now) id.0)) }
{
    let mut items = Vec::new(alloc);
    let mut at = id;
    while let Some((before, item)) = step_behind(game, histories, seat, at) {
        items.push(item)?;
        at = before;
    }
    items.as_mut_slice().reverse();
    Ok(items)
}

/// The public list of a history.
pub fn public_along(
    alloc: Global,
    game: &Game,
    histories: &Histories,
    id: HistoryId,
) -> Result<Vec<u32>, AllocError>
    requires unfolded { histories.now ≡ unfolded (game_model game.now) }
    requires there { id.0 < length histories.now.items }
    ensures { IfOk result (λ v. v.items
        ≡ public_list (game_model game.now) (history_at (game_model game.now) id.0)) }
{
    let mut tokens = Vec::new(alloc);
    let mut at = id;
    while let Some((before, item)) = step_behind(game, histories, Seat::One, at) {
        tokens.push(item.public)?;
        at = before;
    }
    tokens.as_mut_slice().reverse();
    Ok(tokens)
}
