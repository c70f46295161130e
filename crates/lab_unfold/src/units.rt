//! Chance units and the scale, unless they are above 2^80.

ghost use Rattle.std.specs.Prelude.{◌≡◌, ◌<◌, ◌≤◌, ◌*◌, ◌^◌, true, map};
ghost use Rattle.std.specs.List.{list_all};
ghost use Rattle.lab_defs_game.specs.Chance as chances;
ghost use Rattle.lab_defs_game.specs.Histories.{histories};
ghost use Rattle.lab_defs_game.specs.Unfolding.{told_scale};
ghost use Rattle.lab_world.specs.Games.{game_model};
ghost use Rattle.lab_world.specs.Models.{row_model};
ghost use Rattle.lab_world.specs.Filled.{is_row};
ghost use Rattle.lab_unfold.specs.Values.{history_in};
ghost use Rattle.lab_unfold.specs.Units as units;

use crate::History;
use lab_units::lcm_within;
use lab_world::{Game, Row};

// The greatest scale that is told: 2^80.
const SCALE_LIMIT: u128 = 1 << 80;

/// The scale of a game's chances: the product of the chance units of all steps.
pub fn scale(game: &Game, items: &[History]) -> Option<u128>
    requires { items.now ≡ map (history_in (game_model game.now)) (histories (game_model game.now)) }
    ensures { result ≡ told_scale (chances.scale (game_model game.now)) }
{
    let mut scale = 1;
    for later in 0..game.horizon {
        let unit = chance_unit(game, items, game.horizon - 1 - later)?;
        scale = product(unit, scale)?;
    }
    Some(scale)
}

// A product.
fn product(a: u128, b: u128) -> Option<u128>
    requires first { a ≤ 2 ^ 80 }
    requires second { b ≤ 2 ^ 80 }
    requires some { 0 < b }
    ensures { result ≡ told_scale (a * b) }
{
    if a > SCALE_LIMIT / b {
        return None;
    }
    Some(a * b)
}

// The unit of a step: the least common multiple of the totals of all rows of worlds where histories of `depth` steps lead.
fn chance_unit(game: &Game, items: &[History], depth: u32) -> Option<u128>
    requires { items.now ≡ map (history_in (game_model game.now)) (histories (game_model game.now)) }
    ensures { result ≡ told_scale (chances.chance_unit (game_model game.now) depth) }
{
    let mut unit = 1;
    for later in 0..items.len() {
        unit = unit_with(game, items[items.len() - 1 - later], depth, unit)?;
    }
    Some(unit)
}

// The least common multiple of a unit and of the totals at the place of a history, if it has `depth` steps.
fn unit_with(game: &Game, history: History, depth: u32, unit: u128) -> Option<u128>
    requires some { 0 < unit }
    requires told { unit ≤ 2 ^ 80 }
    ensures { result ≡ told_scale (units.unit_with (game_model game.now) depth history unit) }
{
    if history.depth != depth {
        return Some(unit);
    }
    let Some(world) = game.world(history.world) else {
        return Some(unit);
    };
    totals_with(world.rows.as_slice(), unit)
}

// The least common multiple of a unit and of the totals of rows.
fn totals_with(rows: &[Row], unit: u128) -> Option<u128>
    requires some { 0 < unit }
    requires told { unit ≤ 2 ^ 80 }
    requires rows { list_all is_row rows.now ≡ true }
    ensures { result ≡ told_scale (units.lcm_with (map chances.row_total (map row_model rows.now)) unit) }
{
    let mut multiple = unit;
    for later in 0..rows.len() {
        let total = rows[rows.len() - 1 - later].total;
        multiple = lcm_within(total as u128, multiple, SCALE_LIMIT)?;
    }
    Some(multiple)
}
