//! Whether the names of actions agree in each information set.

ghost use Rattle.std.specs.Prelude.{◌≡◌, ◌<◌, ℕ, true, false, length, map, slice_index, IfSome, IfNone, OnOk, IfErr, nat_lt};
ghost use Rattle.std.specs.List.{list_all};
ghost use Rattle.lab_defs_text.specs.Texts.{place_at};
ghost use Rattle.lab_defs_game.specs.Laws.{AlikeNames};
ghost use Rattle.lab_defs_game.specs.Histories.{action_names};
ghost use Rattle.lab_defs_game.specs.Recall as recall;
ghost use Rattle.lab_world.specs.Games.{game_model};
ghost use Rattle.lab_world.specs.Models.{action_list};
ghost use Rattle.lab_world.specs.Seats.{seat_number};
ghost use Rattle.lab_world.specs.declared.place.ActionId.{ActionId};
ghost use Rattle.lab_unfold.specs.Values.{unfolded};
ghost use Rattle.lab_recall.specs.Tests.{differs_at, IsFirstAt};
ghost use Rattle.lab_recall.specs.Faults.{IsNamesFault};

use crate::RecallFault;
use lab_unfold::{Histories, HistoryId};
use lab_world::{ActionId, Game, Seat, WorldId};

/// Checks that at the histories of each information set of a seat its actions have the same names as at the first one.
pub fn check_names(game: &Game, histories: &Histories, seat: Seat) -> Result<(), RecallFault>
    requires unfolded { histories.now ≡ unfolded (game_model game.now) }
    ensures none { OnOk result (AlikeNames (game_model game.now) (seat_number seat)) }
    ensures fault { IfErr result (λ e. IsNamesFault (game_model game.now) (seat_number seat) e) }
{
    let number = seat.number();
    let firsts = histories.set_firsts(number);
    match first_differing(game, histories, firsts, seat) {
        Some(second) => Err(RecallFault::LegalDiffers {
            seat: number,
            first: HistoryId(firsts[second as usize]),
            second: HistoryId(second),
        }),
        None => Ok(()),
    }
}

// The first history whose actions have other names than those of the first one of its set.
fn first_differing(game: &Game, histories: &Histories, firsts: &[u32], seat: Seat) -> Option<u32>
    requires unfolded { histories.now ≡ unfolded (game_model game.now) }
    requires count { length firsts.now ≡ length histories.now.items }
    requires below { (i : ℕ) → i < length histories.now.items → slice_index firsts.now i < length histories.now.items }
    ensures some { IfSome result (λ n. IsFirstAt (differs_at (game_model game.now) (seat_number seat) firsts.now) (length histories.now.items) n) }
    ensures none { IfNone result ((i : ℕ) → i < length histories.now.items → differs_at (game_model game.now) (seat_number seat) firsts.now i ≡ false) }
{
    for number in 0..histories.count() {
        if differs(game, histories, firsts, seat, number) {
            return Some(number);
        }
    }
    None
}

// Whether the seat's actions at a history have other names than those at the first one of its set.
fn differs(game: &Game, histories: &Histories, firsts: &[u32], seat: Seat, number: u32) -> bool
    requires unfolded { histories.now ≡ unfolded (game_model game.now) }
    requires count { length firsts.now ≡ length histories.now.items }
    requires there { number < length histories.now.items }
    requires below { slice_index firsts.now number < length histories.now.items }
    ensures { result ≡ differs_at (game_model game.now) (seat_number seat) firsts.now number }
{
    let here = histories.item(HistoryId(number)).world;
    let first = histories.item(HistoryId(firsts[number as usize])).world;
    game.world(here).is_some() && !same_names(game, first, here, seat)
}

// Whether a seat's actions at two places have the same names.
fn same_names(game: &Game, one: WorldId, two: WorldId, seat: Seat) -> bool
    ensures { result ≡ recall.same_names (action_names (seat_number seat) (place_at (game_model game.now) one.0))
        (action_names (seat_number seat) (place_at (game_model game.now) two.0)) }
{
    one == two || actions_of(game, one, seat) == actions_of(game, two, seat)
}

// The seat's actions at a place; none at an end.
fn actions_of(game: &Game, id: WorldId, seat: Seat) -> &[ActionId]
    ensures names { action_list game.now.actions result.now
        ≡ action_names (seat_number seat) (place_at (game_model game.now) id.0) }
    ensures fit { list_all (λ (i : ActionId). nat_lt i.0 (length game.now.actions)) result.now ≡ true }
{
    match game.world(id) {
        Some(world) => world.actions(seat.number()),
        None => &[],
    }
}
