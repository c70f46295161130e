//! The nodes of histories, their parents, and the ends of their subgames.

ghost use Rattle.std.specs.Prelude.{
  ◌≡◌,
  ◌<◌,
  ◌≤◌,
  ◌+◌,
  ◌^◌,
  [],
  length,
  map,
  slice_index,
  slice_index_or,
  IfOk,
};
ghost use Rattle.std.specs.List.{All};
ghost use Rattle.std.specs.List.Sorted.{IsStrictlySortedBy};
ghost use Rattle.lab_defs_game.specs.Keys.{count, list_cmp};
ghost use Rattle.lab_defs_game.specs.Histories as model;
ghost use Rattle.lab_defs_game.specs.Nodes as nodes;
ghost use Rattle.lab_defs_game.specs.Sets.{public_list};
ghost use Rattle.lab_world.specs.Games.{game_model};
ghost use Rattle.lab_unfold.specs.Values.{unfolded};
ghost use Rattle.lab_unfold.specs.Parents.{history_at};
ghost use Rattle.lab_tree.specs.NodeValues.{parent_node, end_among, keys_in, HasList};
ghost use Rattle.lab_tree.specs.Trees.{node_id};

use super::behind::step_behind;
use super::node_key::NodeKey;
use crate::NodeId;
use lab_unfold::{Histories, HistoryId};
use lab_world::{Game, Seat};
use std::alloc::{AllocError, Global};

/// The node of each history, by the first one at it and that one's rank.
pub fn node_ids(alloc: Global, firsts: &[u32], ranks: &[u32]) -> Result<Vec<NodeId>, AllocError>
    requires { All (λ f. f < length ranks.now) firsts.now }
    ensures { IfOk result (λ v. v.items ≡ map (λ f. node_id (slice_index ranks.now f)) firsts.now) }
{
    let mut ids = Vec::with_capacity(alloc, firsts.len())?;
    for first in firsts {
        ids.push(NodeId(ranks[*first as usize]))?;
    }
    Ok(ids)
}

/// The parent of each node, by the first history at it.
pub fn parents(
    alloc: Global,
    game: &Game,
    histories: &Histories,
    order: &[(NodeKey, u32)],
    of: &[NodeId],
) -> Result<Vec<Option<NodeId>>, AllocError>
    requires unfolded { histories.now ≡ unfolded (game_model game.now) }
    requires lists { All (HasList (game_model game.now)) order.now }
    requires of { of.now ≡ map (λ h. node_id (nodes.node_of (game_model game.now) h)) (model.histories (game_model game.now)) }
    ensures { IfOk result (λ v. v.items ≡ map (parent_node (game_model game.now)) (keys_in order.now)) }
{
    let mut parents = Vec::with_capacity(alloc, order.len())?;
    for entry in order {
        parents.push(parent_of(game, histories, of, HistoryId(entry.1)))?;
    }
    Ok(parents)
}

/// The parent of the node of a history.
fn parent_of(game: &Game, histories: &Histories, of: &[NodeId], id: HistoryId) -> Option<NodeId>
    requires unfolded { histories.now ≡ unfolded (game_model game.now) }
    requires there { id.0 < length (model.histories (game_model game.now)) }
    requires of { of.now ≡ map (λ h. node_id (nodes.node_of (game_model game.now) h)) (model.histories (game_model game.now)) }
    ensures { result ≡ parent_node (game_model game.now) (public_list (game_model game.now) (history_at (game_model game.now) id.0)) }
{
    match step_behind(game, histories, Seat::One, id) {
        Some((before, _)) => Some(of[before.0 as usize]),
        None => None,
    }
}

/// The number after that of the last node of each subgame.
pub fn ends(alloc: Global, order: &[(NodeKey, u32)]) -> Result<Vec<u32>, AllocError>
    requires sorted { IsStrictlySortedBy list_cmp (keys_in order.now) }
    requires few { length order.now < 2 ^ 32 }
    ensures { IfOk result (λ v. v.items ≡ map (end_among (keys_in order.now)) (keys_in order.now)) }
{
    let mut ends = Vec::with_capacity(alloc, order.len())?;
    for node in 0..order.len() {
        ends.push(run_end(order, node) as u32)?;
    }
    Ok(ends)
}

/// The number after that of the last key that the key with a number begins.
fn run_end(order: &[(NodeKey, u32)], node: usize) -> usize
    requires sorted { IsStrictlySortedBy list_cmp (keys_in order.now) }
    requires there { node < length order.now }
    ensures value { result ≡ end_among (keys_in order.now) (slice_index_or (keys_in order.now) node []) }
    ensures within { result ≤ length order.now }
{
    let mut end = node + 1;
    while end < order.len() && order[node].0.begins(&order[end].0) {
        end += 1;
    }
    end
}
