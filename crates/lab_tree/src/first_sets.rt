//! What is seen along the first histories of information sets.

ghost use Rattle.std.specs.Prelude.{◌≡◌, ◌<◌, length, IfOk};
ghost use Rattle.lab_defs_game.specs.Histories as model;
ghost use Rattle.lab_defs_game.specs.Sets.{seen};
ghost use Rattle.lab_world.specs.Games.{game_model};
ghost use Rattle.lab_world.specs.Seats.{seat_number};
ghost use Rattle.lab_unfold.specs.Values.{unfolded};
ghost use Rattle.lab_unfold.specs.Firsts.{is_inner};
ghost use Rattle.lab_tree.specs.Keyed as keys;

use super::behind::seen_along;
use super::inner::leads_on;
use super::set_key::SetKey;
use lab_unfold::{Histories, HistoryId};
use lab_world::{Game, Seat};
use std::alloc::{AllocError, Global};

/// What a seat has seen along each history that is the first of its information set, and the number of the history.
pub fn set_keys(
    alloc: Global,
    game: &Game,
    histories: &Histories,
    seat: Seat,
    firsts: &[u32],
) -> Result<Vec<(SetKey, u32)>, AllocError>
    requires unfolded { histories.now ≡ unfolded (game_model game.now) }
    requires count { length firsts.now ≡ length (model.histories (game_model game.now)) }
    ensures { IfOk result (λ v. v.items ≡ keys.keyed (is_inner (game_model game.now)) (seen (game_model game.now) (seat_number seat))
        (model.histories (game_model game.now)) firsts.now (length (model.histories (game_model game.now)))) }
{
    let mut keys = Vec::new(alloc);
    for number in 0..histories.count() {
        if is_first(game, histories, firsts, number) {
            let items = seen_along(alloc, game, histories, seat, HistoryId(number))?;
            keys.push((SetKey::new(items), number))?;
        }
    }
    Ok(keys)
}

// Whether a history is not terminal and the first of its information set.
fn is_first(game: &Game, histories: &Histories, firsts: &[u32], number: u32) -> bool
    requires unfolded { histories.now ≡ unfolded (game_model game.now) }
    requires there { number < length histories.now.items }
    requires count { length firsts.now ≡ length (model.histories (game_model game.now)) }
    ensures { result ≡ keys.is_first (is_inner (game_model game.now)) (model.histories (game_model game.now)) firsts.now number }
{
    leads_on(game, histories, HistoryId(number)) && firsts[number as usize] == number
}
