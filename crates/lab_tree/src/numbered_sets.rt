//! The information sets of a seat with their numbers.

ghost use Rattle.std.specs.Prelude.{◌≡◌, ◌≤◌, None, length, map, IfOk};
ghost use Rattle.lab_defs_game.specs.Histories as model;
ghost use Rattle.lab_defs_game.specs.Laws.{AlikeNames};
ghost use Rattle.lab_defs_game.specs.Nodes as nodes;
ghost use Rattle.lab_defs_game.specs.Sets.{sets};
ghost use Rattle.lab_defs_game.specs.Unfolding.{unfold_fault};
ghost use Rattle.lab_world.specs.Games.{game_model};
ghost use Rattle.lab_world.specs.Seats.{seat_number};
ghost use Rattle.lab_unfold.specs.Values.{unfolded};
ghost use Rattle.lab_tree.specs.Trees.{node_id, set_at, set_in};

use super::first_sets::set_keys;
use super::ordered::{ranks, sorted};
use super::set_parts::{set_ids, set_infos};
use crate::{NodeId, SetInfo};
use lab_form::SetId;
use lab_unfold::Histories;
use lab_world::{Game, Seat};
use std::alloc::{AllocError, Global};

/// The sets of a seat in order, and the set of each history that is not terminal.
#[derive(Drop)]
pub struct NumberedSets {
    pub sets: Vec<SetInfo>,
    pub of: Vec<Option<SetId>>,
}

/// Those of a game.
pub fn numbered_sets(
    alloc: Global,
    game: &Game,
    histories: &Histories,
    seat: Seat,
    node_of: &[NodeId],
) -> Result<NumberedSets, AllocError>
    requires unfolded { histories.now ≡ unfolded (game_model game.now) }
    requires accepted { unfold_fault (game_model game.now) ≡ None }
    requires alike { AlikeNames (game_model game.now) (seat_number seat) }
    requires nodes { node_of.now ≡ map (λ h. node_id (nodes.node_of (game_model game.now) h)) (model.histories (game_model game.now)) }
    ensures sets { IfOk result (λ n. n.sets.items ≡ map (set_in (game_model game.now) (seat_number seat)) (sets (game_model game.now) (seat_number seat))) }
    ensures of { IfOk result (λ n. n.of.items ≡ map (set_at (game_model game.now) (seat_number seat)) (model.histories (game_model game.now))) }
    ensures few { IfOk result (λ n. length n.sets.items ≤ 65536) }
{
    let firsts = histories.set_firsts(seat.number());
    let order = sorted(alloc, set_keys(alloc, game, histories, seat, firsts)?)?;
    let ranks = ranks(alloc, order.as_slice(), histories.count())?;
    let of = set_ids(alloc, game, histories, firsts, ranks.as_slice())?;
    let sets = set_infos(
        alloc,
        game,
        histories,
        seat,
        order.as_slice(),
        of.as_slice(),
        node_of,
    )?;
    Ok(NumberedSets { sets, of })
}
