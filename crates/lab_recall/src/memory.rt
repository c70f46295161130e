//! Whether what a seat sees determines its own actions.

ghost use Rattle.std.specs.Prelude.{◌≡◌, ◌<◌, ℕ, false, length, IfSome, IfNone, OnOk, IfErr};
ghost use Rattle.lab_defs_text.specs.Games.{by_seen};
ghost use Rattle.lab_defs_game.specs.Laws.{Remembers};
ghost use Rattle.lab_world.specs.Games.{game_model};
ghost use Rattle.lab_world.specs.Seats.{seat_number};
ghost use Rattle.lab_unfold.specs.Values.{unfolded};
ghost use Rattle.lab_recall.specs.Tests.{forgets_at, IsFirstAt};
ghost use Rattle.lab_recall.specs.Faults.{IsMemoryFault};

use crate::RecallFault;
use lab_unfold::{Histories, HistoryId, first_of_tokens};
use lab_world::{Game, Seat};
use std::alloc::Global;

/// Checks that the tokens that a seat has seen tell its own actions.
pub fn check_memory(
    alloc: Global,
    game: &Game,
    histories: &Histories,
    seat: Seat,
) -> Result<(), RecallFault>
    requires unfolded { histories.now ≡ unfolded (game_model game.now) }
    ensures none { OnOk result (Remembers (game_model game.now) (seat_number seat)) }
    ensures fault { IfErr result (λ e. IsMemoryFault (game_model game.now) (seat_number seat) e) }
{
    let number = seat.number();
    let firsts = first_of_tokens(alloc, game, histories, number)?;
    let tokens = firsts.as_slice();
    let sets = histories.set_firsts(number);
    match first_forgotten(game, histories, sets, tokens) {
        Some(second) => Err(RecallFault::Forgotten {
            seat: number,
            first: HistoryId(tokens[second as usize]),
            second: HistoryId(second),
        }),
        None => Ok(()),
    }
}

// The first history that is not terminal where the first one with the same tokens is not the first one of the set.
fn first_forgotten(game: &Game, histories: &Histories, sets: &[u32], tokens: &[u32]) -> Option<u32>
    requires unfolded { histories.now ≡ unfolded (game_model game.now) }
    requires sets { length sets.now ≡ length histories.now.items }
    requires tokens { length tokens.now ≡ length histories.now.items }
    ensures some { IfSome result (λ n. IsFirstAt (forgets_at (game_model game.now) sets.now tokens.now) (length histories.now.items) n) }
    ensures none { IfNone result ((i : ℕ) → i < length histories.now.items → forgets_at (game_model game.now) sets.now tokens.now i ≡ false) }
{
    for number in 0..histories.count() {
        if forgets(game, histories, sets, tokens, number) {
            return Some(number);
        }
    }
    None
}

// Whether both are not the same at a history that is not terminal.
fn forgets(game: &Game, histories: &Histories, sets: &[u32], tokens: &[u32], number: u32) -> bool
    requires unfolded { histories.now ≡ unfolded (game_model game.now) }
    requires sets { length sets.now ≡ length histories.now.items }
    requires tokens { length tokens.now ≡ length histories.now.items }
    requires there { number < length histories.now.items }
    ensures { result ≡ forgets_at (game_model game.now) sets.now tokens.now number }
{
    let here = histories.item(HistoryId(number)).world;
    game.world(here).is_some() && sets[number as usize] != tokens[number as usize]
}
