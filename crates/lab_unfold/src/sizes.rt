//! The scale of a game, if the numbers that it makes are small enough.

ghost use Rattle.std.specs.Prelude.{
  ◌≡◌,
  ◌<◌,
  ◌≤◌,
  ◌+◌,
  ◌*◌,
  ◌^◌,
  None,
  Some,
  map,
  max,
  nat_le,
  IfOk,
  IfErr,
  IfSome,
  IfNone,
  OnOk,
};
ghost use Rattle.lab_defs_game.specs.Histories.{histories};
ghost use Rattle.lab_defs_game.specs.Unfolding.{size_fault};
ghost use Rattle.lab_world.specs.Games.{game_model};
ghost use Rattle.lab_unfold.specs.Values.{history_in, scale_in};
ghost use Rattle.lab_unfold.specs.Faults.{fault_in};

use super::decisions::most_decisions;
use super::payoffs::top_payoff;
use super::units::scale;
use crate::{History, Scale, UnfoldFault};
use lab_units::pow_within;
use lab_world::{Game, Seat};
use std::alloc::Global;

// The greatest size: 2^64.
const SIZE_LIMIT: u128 = 1 << 64;

/// The scale of a game, if the greatest sum of earnings in whole units is at most 2^64.
pub fn scale_within(alloc: Global, game: &Game, items: &[History]) -> Result<Scale, UnfoldFault>
    requires { items.now ≡ map (history_in (game_model game.now)) (histories (game_model game.now)) }
    ensures value { IfOk result (λ s. s ≡ scale_in (game_model game.now)) }
    ensures none { OnOk result (size_fault (game_model game.now) ≡ None) }
    ensures fault { IfErr result (λ e.
        IfSome (fault_in e) (λ f. size_fault (game_model game.now) ≡ Some f)) }
{
    let Ok(most1) = most_decisions(alloc, game, items, Seat::One) else {
        return Err(UnfoldFault::Memory);
    };
    let Ok(most2) = most_decisions(alloc, game, items, Seat::Two) else {
        return Err(UnfoldFault::Memory);
    };
    let top = top_payoff(game, items);
    let told = scale(game, items);
    match fitting(told, top, game.grid, most1 + most2) {
        Some(k) => Ok(Scale {
            k,
            most1,
            most2,
            top,
            grid: game.grid,
        }),
        None => Err(UnfoldFault::SizePassed {
            top,
            k: told,
            most1,
            most2,
        }),
    }
}

// A scale that is told, if the size that it makes is within the limit.
fn fitting(told: Option<u128>, top: u32, grid: u32, decisions: u32) -> Option<u128>
    requires told { IfSome told (λ k. (0 < k) × (k ≤ 2 ^ 80)) }
    requires grid { 0 < grid }
    ensures some { IfSome result (λ k. (told ≡ Some k) × (max 1 top * k * grid ^ decisions ≤ 2 ^ 64)) }
    ensures none { IfNone result (IfSome told (λ k. 2 ^ 64 < max 1 top * k * grid ^ decisions)) }
{
    let k = told?;
    if fits(top, k, grid, decisions) {
        Some(k)
    } else {
        None
    }
}

// Whether a size is within the limit.
fn fits(top: u32, k: u128, grid: u32, decisions: u32) -> bool
    requires some { 0 < k }
    requires told { k ≤ 2 ^ 80 }
    requires grid { 0 < grid }
    ensures { result ≡ nat_le (max 1 top * k * grid ^ decisions) (2 ^ 64) }
{
    let Some(power) = pow_within(grid as u128, decisions, SIZE_LIMIT) else {
        return false;
    };
    top.max(1) as u128 * k <= SIZE_LIMIT / power
}
