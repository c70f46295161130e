//! The histories that are one step longer than another.

ghost use Rattle.std.specs.Prelude.{◌≡◌, ◌<◌, ◌≤◌, ◌+◌, ◌*◌, ◌++◌, length, OnOk, Err};
ghost use Rattle.lab_world.specs.Games.{game_model};
ghost use Rattle.lab_world.specs.Filled.{IsFilled};
ghost use Rattle.lab_unfold.specs.Children.{
  row_children,
  second_children,
  first_children,
  children_in,
};

use crate::{History, HistoryId, Step};
use lab_world::{Game, Outcome, World};

// The most histories that are kept.
const HISTORY_LIMIT: usize = 65_536;

/// Why no more histories are kept.
#[derive(Clone, Copy, Debug, PartialEq, Eq)]
pub enum Stop {
    /// There are too many.
    Full,
    Memory,
}

/// Adds the histories that are one step longer than the one with the number.
pub fn push_children(
    items: &mut Vec<History>,
    game: &Game,
    parent: HistoryId,
    history: History,
) -> Result<(), Stop>
    requires few { length items.old.items ≤ 65536 }
    requires depth { history.depth ≤ 32 }
    ensures ok { OnOk result (items.new.items ≡ items.old.items
        ++ children_in (game_model game.now) parent history.world.0 (history.depth + 1)) }
    ensures few { OnOk result (length items.new.items ≤ 65536) }
    ensures full { result ≡ Err Stop.Full → 65536 < length items.old.items
        + length (children_in (game_model game.now) parent history.world.0 (history.depth + 1)) }
{
    match game.world(history.world) {
        Some(world) => push_firsts(items, parent, history.depth + 1, world),
        None => Ok(()),
    }
}

// Adds those by each action of the first seat.
fn push_firsts(
    items: &mut Vec<History>,
    parent: HistoryId,
    depth: u32,
    world: &World,
) -> Result<(), Stop>
    requires few { length items.old.items ≤ 65536 }
    requires filled { IsFilled world.now }
    ensures ok { OnOk result (items.new.items ≡ items.old.items
        ++ first_children parent depth world.now 0 (length world.now.one)) }
    ensures few { OnOk result (length items.new.items ≤ 65536) }
    ensures full { result ≡ Err Stop.Full → 65536 < length items.old.items
        + length (first_children parent depth world.now 0 (length world.now.one)) }
{
    for place1 in 0..world.one.len() {
        push_seconds(items, parent, depth, place1 as u32, world)?;
    }
    Ok(())
}

// Adds those by an action of the first seat and each of the second's.
fn push_seconds(
    items: &mut Vec<History>,
    parent: HistoryId,
    depth: u32,
    place1: u32,
    world: &World,
) -> Result<(), Stop>
    requires few { length items.old.items ≤ 65536 }
    requires filled { IsFilled world.now }
    requires place { place1 < length world.now.one }
    ensures ok { OnOk result (items.new.items ≡ items.old.items
        ++ second_children parent depth world.now place1 0 (length world.now.two)) }
    ensures few { OnOk result (length items.new.items ≤ 65536) }
    ensures more { OnOk result (length items.old.items < length items.new.items) }
    ensures full { result ≡ Err Stop.Full → 65536 < length items.old.items
        + length (second_children parent depth world.now place1 0 (length world.now.two)) }
{
    for place2 in 0..world.two.len() {
        let row = world.row(place1 as usize, place2);
        push_row(
            items,
            parent,
            depth,
            place1,
            place2 as u32,
            row.outcomes.as_slice(),
        )?;
    }
    Ok(())
}

// Adds those by each outcome of a row.
fn push_row(
    items: &mut Vec<History>,
    parent: HistoryId,
    depth: u32,
    place1: u32,
    place2: u32,
    outcomes: &[Outcome],
) -> Result<(), Stop>
    requires few { length items.old.items ≤ 65536 }
    ensures ok { OnOk result (items.new.items ≡ items.old.items
        ++ row_children parent depth place1 place2 0 outcomes.now) }
    ensures few { OnOk result (length items.new.items ≤ 65536) }
    ensures full { result ≡ Err Stop.Full → 65536 < length items.old.items + length outcomes.now }
{
    for outcome in 0..outcomes.len() {
        if items.len() >= HISTORY_LIMIT {
            return Err(Stop::Full);
        }
        let step = Step {
            place1,
            place2,
            outcome: outcome as u32,
        };
        let history = History {
            parent: Some(parent),
            step: Some(step),
            world: outcomes[outcome].next,
            depth,
        };
        let Ok(()) = items.push(history) else {
            return Err(Stop::Memory);
        };
    }
    Ok(())
}
