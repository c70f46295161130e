//! What a seat sees of one step.

ghost use Rattle.std.specs.Prelude.{◌≡◌, ◌⊎◌, ◌<◌, ◌==◌, if◌then◌else◌, [], None, map, length, slice_index_or};
ghost use Rattle.std.specs.Option.{option_map};
ghost use Rattle.lab_defs_text.specs.Texts.{place_at};
ghost use Rattle.lab_defs_game.specs.Histories as model;
ghost use Rattle.lab_defs_game.specs.Laws.{IsStep};
ghost use Rattle.lab_defs_game.specs.Sets.{seen};
ghost use Rattle.lab_world.specs.Games.{game_model};
ghost use Rattle.lab_world.specs.Models.{outcome_model};
ghost use Rattle.lab_world.specs.Seats.{seat_number};
ghost use Rattle.lab_unfold.specs.Values.{unfolded, history_in, step_model};
ghost use Rattle.lab_unfold.specs.Items.{item_model, last_item};

use crate::{Histories, History, HistoryId, Step};
use lab_world::{Game, Outcome, Seat, WorldId};

/// The place of the seat's own action, its private token and the public token. Items go by these in this order.
#[derive(Clone, Copy, Debug, PartialEq, Eq, PartialOrd, Ord)]
pub struct Item {
    pub action: u32,
    pub own: u32,
    pub public: u32,
}

/// What a seat, 1 or 2, has seen of the last step of a history; none where there is no step.
pub fn last_seen(game: &Game, histories: &Histories, seat: u32, id: HistoryId) -> Option<Item>
    requires unfolded { histories.now ≡ unfolded (game_model game.now) }
    requires seat { (seat ≡ 1) ⊎ (seat ≡ 2) }
    requires there { id.0 < length histories.now.items }
    ensures { option_map item_model result
        ≡ last_item (seen (game_model game.now) seat (slice_index_or histories.now.histories id.0 [])) }
{
    last_among(game, histories.items(), Seat::of(seat), id)
}

/// Likewise, by the histories alone.
pub fn last_among(game: &Game, items: &[History], seat: Seat, id: HistoryId) -> Option<Item>
    requires items { items.now ≡ map (history_in (game_model game.now)) (model.histories (game_model game.now)) }
    requires there { id.0 < length items.now }
    ensures { option_map item_model result
        ≡ last_item (seen (game_model game.now) (seat_number seat) (slice_index_or (model.histories (game_model game.now)) id.0 [])) }
{
    let history = items[id.0 as usize];
    let (Some(parent), Some(step)) = (history.parent, history.step) else {
        return None;
    };
    let before = items[parent.0 as usize];
    let outcome = outcome_at(game, before.world, step);
    Some(item_with(outcome, step, seat))
}

// The outcome of a step out of a place.
fn outcome_at(game: &Game, id: WorldId, step: Step) -> Outcome
    requires { IsStep (place_at (game_model game.now) id.0) (step_model step) }
    ensures { outcome_model result ≡ model.outcome_of (game_model game.now) id.0 (step_model step) }
{
    let Some(world) = game.world(id) else {
        unreachable!();
    };
    let row = world.row(step.place1 as usize, step.place2 as usize);
    row.outcomes.as_slice()[step.outcome as usize]
}

// What a seat sees of a step with this outcome.
fn item_with(outcome: Outcome, step: Step, seat: Seat) -> Item
    ensures action { result.action ≡ (if seat_number seat == 1 then step.place1 else step.place2) }
    ensures own { result.own ≡ (if seat_number seat == 1 then outcome.own1.0 else outcome.own2.0) }
    ensures public { result.public ≡ outcome.public.0 }
{
    let (action, own) = match seat {
        Seat::One => (step.place1, outcome.own1),
        Seat::Two => (step.place2, outcome.own2),
    };
    Item {
        action,
        own: own.0,
        public: outcome.public.0,
    }
}
