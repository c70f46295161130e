//! The rows of each node.

ghost use Rattle.std.specs.Prelude.{◌≡◌, ◌<◌, ◌+◌, ◌^◌, [], None, map, length, flat_map, ◌≤◌, slice_index, slice_range, slice_index_or, IfOk};
ghost use Rattle.lab_defs_game.specs.Histories as model;
ghost use Rattle.lab_defs_game.specs.Nodes as nodes;
ghost use Rattle.lab_defs_game.specs.Unfolding.{unfold_fault};
ghost use Rattle.lab_world.specs.Games.{game_model};
ghost use Rattle.lab_unfold.specs.Values.{unfolded};
ghost use Rattle.lab_tree.specs.Trees.{node_id, set_at, tree_of};
ghost use Rattle.lab_tree.specs.Ends.{parts_of, AreCuts};

use super::ends::ends;
use super::row_infos::row_infos;
use super::starts::starts;
use crate::{NodeId, RowInfo};
use lab_form::SetId;
use lab_unfold::Histories;
use lab_world::Game;
use std::alloc::{AllocError, Global};
use std::marker::Model;

/// The terminal histories of each node.
#[derive(Drop)]
pub struct Rows {
    items: Vec<RowInfo>,
    starts: Vec<u32>,
}

impl Model for Rows {
    ghost use Rattle.std.specs.Prelude.{List, length};
    ghost use Rattle.lab_tree.specs.declared.info.RowInfo.{RowInfo};
    ghost use Rattle.lab_tree.specs.Ends.{parts_of, AreCuts};

    ghost Value = { List (List RowInfo) };

    ghost view = { λ r. parts_of r.starts.items r.items.items };

    ghost invariant = { λ r. AreCuts r.starts.items (length r.items.items) };
}

impl Rows {
    /// The terminal histories of each of the nodes of a game, from the node of each history and the set of each seat at it.
    pub fn build(
        alloc: Global,
        game: &Game,
        items: &Histories,
        count: u32,
        node_of: &[NodeId],
        one: &[Option<SetId>],
        two: &[Option<SetId>],
    ) -> Result<Self, AllocError>
        requires unfolded { items.now ≡ unfolded (game_model game.now) }
        requires accepted { unfold_fault (game_model game.now) ≡ None }
        requires count { count ≡ length (nodes.nodes (game_model game.now)) }
        requires nodes { node_of.now ≡ map (λ h. node_id (nodes.node_of (game_model game.now) h)) (model.histories (game_model game.now)) }
        requires one { one.now ≡ map (set_at (game_model game.now) 1) (model.histories (game_model game.now)) }
        requires two { two.now ≡ map (set_at (game_model game.now) 2) (model.histories (game_model game.now)) }
        ensures { IfOk result (λ r. r ≡ (tree_of (game_model game.now)).node_rows) }
    {
        let ends = ends(alloc, game, items, node_of)?;
        let starts = starts(alloc, ends.as_slice(), count)?;
        let items = row_infos(alloc, game, items, ends.as_slice(), one, two)?;
        Ok(Rows { items, starts })
    }

    /// The terminal histories of a node, as histories are numbered.
    pub fn at(&self, node: NodeId) -> &[RowInfo]
        requires { node.0 < length self.now }
        ensures { result.now ≡ slice_index_or self.now node.0 [] }
    {
        part(
            self.items.as_slice(),
            self.starts.as_slice(),
            node.0 as usize,
        )
    }

    /// The terminal histories of the nodes from one up to and without another, node by node.
    pub fn between(&self, from: u32, to: u32) -> &[RowInfo]
        requires order { from ≤ to }
        requires end { to ≤ length self.now }
        ensures { result.now ≡ flat_map (λ rows. rows) (slice_range self.now from to) }
    {
        range(
            self.items.as_slice(),
            self.starts.as_slice(),
            from as usize,
            to as usize,
        )
    }

    /// All of them, node by node: the row with the number n is the n-th one.
    pub fn all(&self) -> &[RowInfo]
        ensures { result.now ≡ flat_map (λ rows. rows) self.now }
    {
        self.items.as_slice()
    }
}

// The part with a number, of a list whose parts begin at these places.
fn part<'a>(items: &'a [RowInfo], starts: &[u32], number: usize) -> &'a [RowInfo]
    requires cuts { AreCuts starts.now (length items.now) }
    requires there { number < length (parts_of starts.now items.now) }
    ensures { result.now ≡ slice_index_or (parts_of starts.now items.now) number [] }
{
    between(items, starts, number, number + 1)
}

// The parts from one up to and without another, of such a list.
fn range<'a>(items: &'a [RowInfo], starts: &[u32], from: usize, to: usize) -> &'a [RowInfo]
    requires cuts { AreCuts starts.now (length items.now) }
    requires order { from ≤ to }
    requires end { to ≤ length (parts_of starts.now items.now) }
    ensures { result.now ≡ flat_map (λ rows. rows) (slice_range (parts_of starts.now items.now) from to) }
{
    between(items, starts, from, to)
}

// The items from one place of a list to another.
fn between<'a>(items: &'a [RowInfo], starts: &[u32], from: usize, to: usize) -> &'a [RowInfo]
    requires from { from < length starts.now }
    requires to { to < length starts.now }
    requires order { slice_index starts.now from ≤ slice_index starts.now to }
    requires end { slice_index starts.now to ≤ length items.now }
    ensures { result.now ≡ slice_range items.now (slice_index starts.now from) (slice_index starts.now to) }
{
    &items[starts[from] as usize..starts[to] as usize]
}
