//! The information sets of a seat.

ghost use Rattle.std.specs.Prelude.{
  ◌≡◌,
  ◌<◌,
  ◌≤◌,
  ◌+◌,
  ◌*◌,
  None,
  length,
  map,
  IfOk,
};
ghost use Rattle.std.specs.List.{All, range_with_len};
ghost use Rattle.std.specs.Option.{option_map};
ghost use Rattle.lab_defs_game.specs.Histories as model;
ghost use Rattle.lab_defs_game.specs.Laws.{AlikeNames};
ghost use Rattle.lab_defs_game.specs.Nodes as nodes;
ghost use Rattle.lab_defs_game.specs.Paths.{parent};
ghost use Rattle.lab_defs_game.specs.Sets.{seen, sets};
ghost use Rattle.lab_defs_game.specs.Unfolding.{unfold_fault};
ghost use Rattle.lab_defs_value.specs.Tables.{weights_of};
ghost use Rattle.lab_unfold.specs.Firsts.{is_inner};
ghost use Rattle.lab_world.specs.Games.{game_model};
ghost use Rattle.lab_world.specs.Seats.{seat_number};
ghost use Rattle.lab_unfold.specs.Values.{unfolded};
ghost use Rattle.lab_unfold.specs.Parents.{history_at};
ghost use Rattle.lab_tree.specs.NodeValues.{keys_in};
ghost use Rattle.lab_tree.specs.SetValues.{HasSeen, ranked_set, set_with};
ghost use Rattle.lab_tree.specs.Trees.{node_id, set_at, set_in, taken_in};

use super::behind::step_behind;
use super::inner::{actions_after, leads_on};
use super::set_key::SetKey;
use crate::{NodeId, SetInfo};
use lab_form::SetId;
use lab_unfold::{Histories, HistoryId};
use lab_world::{Game, Seat};
use std::alloc::{AllocError, Global};

/// The set of each history that is not terminal, by the first one of its set and that one's rank.
pub fn set_ids(
    alloc: Global,
    game: &Game,
    histories: &Histories,
    firsts: &[u32],
    ranks: &[u32],
) -> Result<Vec<Option<SetId>>, AllocError>
    requires unfolded { histories.now ≡ unfolded (game_model game.now) }
    requires count { length firsts.now ≡ length (model.histories (game_model game.now)) }
    requires within { All (λ f. f < length ranks.now) firsts.now }
    requires few { length firsts.now ≤ 65536 }
    ensures { IfOk result (λ v. v.items ≡ map (ranked_set (game_model game.now) firsts.now ranks.now)
        (range_with_len 0 (length firsts.now))) }
{
    let mut ids = Vec::with_capacity(alloc, firsts.len())?;
    for number in 0..firsts.len() {
        ids.push(set_id(game, histories, firsts, ranks, number))?;
    }
    Ok(ids)
}

// The set of a history, unless it is terminal.
fn set_id(
    game: &Game,
    histories: &Histories,
    firsts: &[u32],
    ranks: &[u32],
    number: usize,
) -> Option<SetId>
    requires unfolded { histories.now ≡ unfolded (game_model game.now) }
    requires count { length firsts.now ≡ length (model.histories (game_model game.now)) }
    requires within { All (λ f. f < length ranks.now) firsts.now }
    requires few { length firsts.now ≤ 65536 }
    requires there { number < length firsts.now }
    ensures { result ≡ ranked_set (game_model game.now) firsts.now ranks.now number }
{
    if leads_on(game, histories, HistoryId(number as u32)) {
        Some(SetId(ranks[firsts[number] as usize]))
    } else {
        None
    }
}

/// The sets of a seat, each by the first history of it.
pub fn set_infos(
    alloc: Global,
    game: &Game,
    histories: &Histories,
    seat: Seat,
    order: &[(SetKey, u32)],
    of: &[Option<SetId>],
    node_of: &[NodeId],
) -> Result<Vec<SetInfo>, AllocError>
    requires unfolded { histories.now ≡ unfolded (game_model game.now) }
    requires accepted { unfold_fault (game_model game.now) ≡ None }
    requires alike { AlikeNames (game_model game.now) (seat_number seat) }
    requires order { keys_in order.now ≡ sets (game_model game.now) (seat_number seat) }
    requires few { length order.now ≤ 65536 }
    requires seen { All (HasSeen (game_model game.now) (seat_number seat)) order.now }
    requires of { of.now ≡ map (set_at (game_model game.now) (seat_number seat)) (model.histories (game_model game.now)) }
    requires nodes { node_of.now ≡ map (λ h. node_id (nodes.node_of (game_model game.now) h)) (model.histories (game_model game.now)) }
    ensures { IfOk result (λ v. v.items ≡ map (set_in (game_model game.now) (seat_number seat)) (sets (game_model game.now) (seat_number seat))) }
{
    let mut infos = Vec::with_capacity(alloc, order.len())?;
    let mut weights = 0u64;
    for place in 0..order.len() {
        let id = HistoryId(order[place].1);
        let info = set_info(
            game,
            histories,
            seat,
            of,
            node_of,
            id,
            place as u32,
            weights as u32,
        );
        weights += weights_among(info.actions);
        infos.push(info)?;
    }
    Ok(infos)
}

// How many weights a set with so many actions has.
fn weights_among(actions: u32) -> u64
    ensures { result ≡ weights_of actions }
{
    if actions >= 2 { actions as u64 } else { 0 }
}

// The set of a history, with its number and the place of its first weight.
fn set_info(
    game: &Game,
    histories: &Histories,
    seat: Seat,
    of: &[Option<SetId>],
    node_of: &[NodeId],
    id: HistoryId,
    number: u32,
    first_weight: u32,
) -> SetInfo
    requires unfolded { histories.now ≡ unfolded (game_model game.now) }
    requires accepted { unfold_fault (game_model game.now) ≡ None }
    requires alike { AlikeNames (game_model game.now) (seat_number seat) }
    requires seen { HasSeen (game_model game.now) (seat_number seat) (seen (game_model game.now) (seat_number seat) (history_at (game_model game.now) id.0), id.0) }
    requires of { of.now ≡ map (set_at (game_model game.now) (seat_number seat)) (model.histories (game_model game.now)) }
    requires nodes { node_of.now ≡ map (λ h. node_id (nodes.node_of (game_model game.now) h)) (model.histories (game_model game.now)) }
    ensures value { result ≡ set_with (game_model game.now) (seat_number seat) (seen (game_model game.now) (seat_number seat) (history_at (game_model game.now) id.0)) number first_weight }
    ensures small { result.actions ≤ 65536 }
{
    SetInfo {
        id: SetId(number),
        node: node_of[id.0 as usize],
        parent: parent_set(game, histories, seat, of, id),
        actions: actions_after(game, histories, seat, id),
        first_weight,
    }
}

// The set and the action there that the set of a history follows.
fn parent_set(
    game: &Game,
    histories: &Histories,
    seat: Seat,
    of: &[Option<SetId>],
    id: HistoryId,
) -> Option<(SetId, u32)>
    requires unfolded { histories.now ≡ unfolded (game_model game.now) }
    requires there { id.0 < length (model.histories (game_model game.now)) }
    requires of { of.now ≡ map (set_at (game_model game.now) (seat_number seat)) (model.histories (game_model game.now)) }
    ensures { result ≡ option_map taken_in (parent (game_model game.now) (seat_number seat)
        (seen (game_model game.now) (seat_number seat) (history_at (game_model game.now) id.0))) }
{
    let (before, item) = step_behind(game, histories, seat, id)?;
    match of[before.0 as usize] {
        Some(set) => Some((set, item.action)),
        None => None,
    }
}
