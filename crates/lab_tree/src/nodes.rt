//! The nodes of a game.

ghost use Rattle.std.specs.Prelude.{◌≡◌, ◌<◌, [], length, slice_index_or, IfOk};
ghost use Rattle.lab_world.specs.Games.{game_model};
ghost use Rattle.lab_unfold.specs.Values.{unfolded};
ghost use Rattle.lab_tree.specs.NodeValues.{nodes_in};
ghost use Rattle.lab_tree.specs.Trees.{node_id};

use super::first_nodes::node_keys;
use super::node_key::NodeKey;
use super::node_parts::{ends, node_ids, parents};
use super::ordered::{ranks, sorted};
use crate::NodeId;
use lab_unfold::{Histories, HistoryId};
use lab_world::Game;
use std::alloc::{AllocError, Global};
use std::marker::Model;

/// The nodes in order by their public lists, each beside the first history at it, the node of each history, parents, and the ends of subgames.
#[derive(Drop)]
pub struct Nodes {
    order: Vec<(NodeKey, u32)>,
    of: Vec<NodeId>,
    parents: Vec<Option<NodeId>>,
    ends: Vec<u32>,
}

impl Model for Nodes {
    ghost use Rattle.std.specs.Prelude.{◌<◌, ◌^◌, length};
    ghost use Rattle.std.specs.List.{All};
    ghost use Rattle.lab_tree.specs.NodeValues.{NodesValue, keys_in};

    ghost Value = { NodesValue };

    ghost view = { λ n. record { nodes = keys_in n.order.items; node_of = n.of.items; parents = n.parents.items; ends = n.ends.items } };

    ghost invariant = { λ n. (length n.order.items < 2 ^ 32) × All (λ k. length k < 2 ^ 32) (keys_in n.order.items) };
}

impl Nodes {
    /// The nodes of a game.
    pub fn build(alloc: Global, game: &Game, histories: &Histories) -> Result<Nodes, AllocError>
        requires { histories.now ≡ unfolded (game_model game.now) }
        ensures { IfOk result (λ n. n ≡ nodes_in (game_model game.now)) }
    {
        let firsts = histories.node_firsts();
        let order = sorted(alloc, node_keys(alloc, game, histories, firsts)?)?;
        let ranks = ranks(alloc, order.as_slice(), histories.count())?;
        let of = node_ids(alloc, firsts, ranks.as_slice())?;
        let parents = parents(alloc, game, histories, order.as_slice(), of.as_slice())?;
        let ends = ends(alloc, order.as_slice())?;
        Ok(Nodes {
            order,
            of,
            parents,
            ends,
        })
    }

    /// How many nodes there are.
    pub fn count(&self) -> u32
        ensures { result ≡ length self.now.nodes }
    {
        self.order.len() as u32
    }

    /// How many steps the histories of a node have.
    pub fn depth(&self, node: NodeId) -> u32
        requires { node.0 < length self.now.nodes }
        ensures { result ≡ length (slice_index_or self.now.nodes node.0 []) }
    {
        self.order[node.0 as usize].0.as_slice().len() as u32
    }

    /// The node of a history.
    pub fn node_of(&self, history: HistoryId) -> NodeId
        requires { history.0 < length self.now.node_of }
        ensures { result ≡ slice_index_or self.now.node_of history.0 (node_id 0) }
    {
        self.of[history.0 as usize]
    }

    /// The node of each history.
    pub fn all_of(&self) -> &[NodeId]
        ensures { result.now ≡ self.now.node_of }
    {
        self.of.as_slice()
    }

    /// The parent of each node, none of the root.
    pub fn parents(&self) -> &[Option<NodeId>]
        ensures { result.now ≡ self.now.parents }
    {
        self.parents.as_slice()
    }

    /// The number after that of the last node of each subgame.
    pub fn ends(&self) -> &[u32]
        ensures { result.now ≡ self.now.ends }
    {
        self.ends.as_slice()
    }
}
