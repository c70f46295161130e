//! The links of histories.

ghost use Rattle.std.specs.Prelude.{◌≡◌, ◌<◌, ◌≤◌, [], map, length, slice_index_or, IfOk};
ghost use Rattle.lab_defs_text.specs.Texts.{place_at};
ghost use Rattle.lab_defs_game.specs.Histories.{histories};
ghost use Rattle.lab_world.specs.Games.{game_model};
ghost use Rattle.lab_world.specs.Seats.{seat_number};
ghost use Rattle.lab_unfold.specs.Values.{history_in};
ghost use Rattle.lab_unfold.specs.Traces.{counted_at, kept_of, traces};
ghost use Rattle.lab_unfold.specs.Links.{IsMade, IsGrown};

use super::item::last_among;
use super::link::{Kept, Link};
use crate::{History, HistoryId, Item};
use lab_world::{Game, Seat, WorldId};
use std::alloc::{AllocError, Global};

/// The link of each history, where what is kept of it goes on from an earlier one.
pub fn links(
    alloc: Global,
    game: &Game,
    items: &[History],
    seat: Seat,
    kept: Kept,
) -> Result<Vec<Option<Link>>, AllocError>
    requires items { items.now ≡ map (history_in (game_model game.now)) (histories (game_model game.now)) }
    requires few { length items.now ≤ 65536 }
    ensures grown { IfOk result (λ v. IsGrown (traces (game_model game.now) (seat_number seat) kept) v.items) }
    ensures few { IfOk result (λ v. length v.items ≤ 65536) }
{
    let mut links = Vec::with_capacity(alloc, items.len())?;
    for number in 0..items.len() as u32 {
        links.push(link(game, items, seat, kept, HistoryId(number)))?;
    }
    Ok(links)
}

// The link of one history.
fn link(game: &Game, items: &[History], seat: Seat, kept: Kept, id: HistoryId) -> Option<Link>
    requires items { items.now ≡ map (history_in (game_model game.now)) (histories (game_model game.now)) }
    requires there { id.0 < length items.now }
    ensures { IsMade (traces (game_model game.now) (seat_number seat) kept) id.0 result }
{
    let history = items[id.0 as usize];
    if !counts(game, history.world, kept) {
        return None;
    }
    let parent = history.parent?;
    let item = last_among(game, items, seat, id)?;
    Some(Link {
        parent: parent.0,
        item: keep(kept, item),
    })
}

// Whether what is seen along a history that leads to this place counts.
fn counts(game: &Game, id: WorldId, kept: Kept) -> bool
    ensures { result ≡ counted_at kept (place_at (game_model game.now) id.0) }
{
    kept == Kept::Public || game.world(id).is_some()
}

// What is kept of an item.
fn keep(kept: Kept, item: Item) -> Item
    ensures { result ≡ kept_of kept item }
{
    match kept {
        Kept::Public => Item {
            action: 0,
            own: 0,
            public: item.public,
        },
        Kept::Tokens => Item { action: 0, ..item },
        Kept::Whole => item,
    }
}
