//! Whether a history is terminal, and the actions at its end.

ghost use Rattle.std.specs.Prelude.{◌≡◌, ◌<◌, ◌≤◌, None, length};
ghost use Rattle.lab_defs_game.specs.Histories.{actions_at, place_of};
ghost use Rattle.lab_defs_game.specs.Unfolding.{unfold_fault};
ghost use Rattle.lab_world.specs.Games.{game_model};
ghost use Rattle.lab_world.specs.Seats.{seat_number};
ghost use Rattle.lab_unfold.specs.Values.{unfolded};
ghost use Rattle.lab_unfold.specs.Firsts.{is_inner};
ghost use Rattle.lab_unfold.specs.Parents.{history_at};

use lab_unfold::{Histories, HistoryId};
use lab_world::{Game, Seat};

/// Whether a history is not terminal.
pub fn leads_on(game: &Game, histories: &Histories, id: HistoryId) -> bool
    requires unfolded { histories.now ≡ unfolded (game_model game.now) }
    requires there { id.0 < length histories.now.items }
    ensures { result ≡ is_inner (game_model game.now) (history_at (game_model game.now) id.0) }
{
    game.world(histories.item(id).world).is_some()
}

/// How many actions a seat has at the end of a history.
pub fn actions_after(game: &Game, histories: &Histories, seat: Seat, id: HistoryId) -> u32
    requires unfolded { histories.now ≡ unfolded (game_model game.now) }
    requires accepted { unfold_fault (game_model game.now) ≡ None }
    requires there { id.0 < length histories.now.items }
    ensures value { result ≡ actions_at (seat_number seat) (place_of (game_model game.now) (history_at (game_model game.now) id.0)) }
    ensures small { result ≤ 65536 }
{
    match game.world(histories.item(id).world) {
        Some(world) => world.actions(seat.number()).len() as u32,
        None => 0,
    }
}
