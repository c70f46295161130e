//! All histories of a game, level by level.

ghost use Rattle.std.specs.Prelude.{
  ◌≡◌,
  ◌<◌,
  ◌≤◌,
  ◌+◌,
  ℕ,
  None,
  Err,
  map,
  option_map,
  length,
  IfOk,
  IfErr,
  OnOk,
};
ghost use Rattle.lab_defs_game.specs.Histories.{histories};
ghost use Rattle.lab_defs_game.specs.Unfolding.{history_count, first_too_many, first_world};
ghost use Rattle.lab_world.specs.declared.place.WorldId.{WorldId};
ghost use Rattle.lab_world.specs.Games.{game_model};
ghost use Rattle.lab_unfold.specs.declared.history.History.{History};
ghost use Rattle.lab_unfold.specs.Values.{history_in};
ghost use Rattle.lab_unfold.specs.Levels.{histories_to, IsFirstOf};
ghost use Rattle.lab_unfold.specs.Faults.{IsFault};

use super::steps::{Stop, push_children};
use crate::{History, HistoryId, UnfoldFault};
use lab_world::{Game, WorldId};
use std::alloc::Global;

/// The histories of a game in order.
#[derive(Drop)]
pub struct Levels {
    pub items: Vec<History>,
    /// The number of the first with as many steps as the horizon.
    pub last: usize,
}

/// All histories of a game, if there are at most 65,536.
pub fn all_histories(alloc: Global, game: &Game) -> Result<Levels, UnfoldFault>
    ensures items { IfOk result (λ l. l.items.items
        ≡ map (history_in (game_model game.now)) (histories (game_model game.now))) }
    ensures last { IfOk result (λ l. IsFirstOf (game_model game.now) game.now.horizon l.last) }
    ensures few { IfOk result (λ l. length l.items.items ≤ 65536) }
    ensures none { OnOk result (first_too_many (game_model game.now) 0 (game.now.horizon + 1) ≡ None) }
    ensures fault { IfErr result (λ e. IsFault (game_model game.now) e) }
{
    let mut items = Vec::new(alloc);
    let root = History {
        parent: None,
        step: None,
        world: game.root,
        depth: 0,
    };
    let Ok(()) = items.push(root) else {
        return Err(UnfoldFault::Memory);
    };
    let mut last = 0;
    for depth in 0..game.horizon {
        let first = last;
        last = items.len();
        add_level(&mut items, game, depth, first)?;
    }
    Ok(Levels { items, last })
}

// Adds the histories that are one step longer than those with numbers from `first` on.
fn add_level(
    items: &mut Vec<History>,
    game: &Game,
    depth: u32,
    first: usize,
) -> Result<(), UnfoldFault>
    requires items { items.old.items
        ≡ map (history_in (game_model game.now)) (histories_to (game_model game.now) depth) }
    requires first { IsFirstOf (game_model game.now) depth first }
    requires horizon { depth < game.now.horizon }
    requires few { (t : ℕ) → t ≤ depth → history_count (game_model game.now) t ≤ 65536 }
    ensures ok { OnOk result (items.new.items
        ≡ map (history_in (game_model game.now)) (histories_to (game_model game.now) (depth + 1))) }
    ensures few { OnOk result (length items.new.items ≤ 65536) }
    ensures fault { IfErr result (λ e. IsFault (game_model game.now) e) }
{
    match push_level(items, game, depth, first) {
        Ok(()) => Ok(()),
        Err(Stop::Full) => Err(UnfoldFault::TooManyHistories { depth: depth + 1 }),
        Err(Stop::Memory) => Err(UnfoldFault::Memory),
    }
}

// Likewise; `Full` where there would be too many.
fn push_level(items: &mut Vec<History>, game: &Game, depth: u32, first: usize) -> Result<(), Stop>
    requires items { items.old.items
        ≡ map (history_in (game_model game.now)) (histories_to (game_model game.now) depth) }
    requires first { IsFirstOf (game_model game.now) depth first }
    requires horizon { depth < game.now.horizon }
    requires few { length items.old.items ≤ 65536 }
    ensures ok { OnOk result (items.new.items
        ≡ map (history_in (game_model game.now)) (histories_to (game_model game.now) (depth + 1))) }
    ensures few { OnOk result (length items.new.items ≤ 65536) }
    ensures full { result ≡ Err Stop.Full →
        65536 < length (histories_to (game_model game.now) (depth + 1)) }
{
    for number in first..items.len() {
        let history = items[number];
        push_children(items, game, HistoryId(number as u32), history)?;
    }
    Ok(())
}

/// Where the first of some histories leads that does not end.
pub fn open_world(game: &Game, level: &[History]) -> Option<WorldId>
    ensures { option_map (λ (w : WorldId). w.0) result
        ≡ first_world (game_model game.now) (map (λ (h : History). h.world.0) level.now) }
{
    for history in level {
        if game.world(history.world).is_some() {
            return Some(history.world);
        }
    }
    None
}
