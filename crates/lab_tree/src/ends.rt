//! The terminal histories of a game by their nodes.

ghost use Rattle.std.specs.Prelude.{◌≡◌, ◌<◌, [], Some, None, map, length, slice_index_or, if◌then◌else◌, IfOk};
ghost use Rattle.std.specs.List.Sorted.{IsNonDecreasingBy};
ghost use Rattle.lab_defs_game.specs.Histories.{histories, is_terminal, terminal_histories};
ghost use Rattle.lab_defs_game.specs.Nodes.{node_of, ends_by_nodes};
ghost use Rattle.lab_world.specs.Games.{game_model};
ghost use Rattle.lab_unfold.specs.Values.{unfolded};
ghost use Rattle.lab_tree.specs.Trees.{node_id};
ghost use Rattle.lab_tree.specs.Ends.{end_in};

use super::end::End;
use super::inner::leads_on;
use crate::NodeId;
use lab_unfold::{Histories, HistoryId};
use lab_world::Game;
use std::alloc::{AllocError, Global};

/// The terminal histories of a game by their nodes, and then by their numbers.
pub fn ends(
    alloc: Global,
    game: &Game,
    items: &Histories,
    nodes: &[NodeId],
) -> Result<Vec<End>, AllocError>
    requires unfolded { items.now ≡ unfolded (game_model game.now) }
    requires nodes { nodes.now ≡ map (λ h. node_id (node_of (game_model game.now) h)) (histories (game_model game.now)) }
    ensures ends { IfOk result (λ e. e.items
        ≡ map (end_in (game_model game.now)) (ends_by_nodes (game_model game.now))) }
    ensures rising { IfOk result (λ e. IsNonDecreasingBy (λ x. x.node) e.items) }
{
    let mut ends = ends_in_order(alloc, game, items, nodes)?;
    ends.sort_by_key(|end| end.node)?;
    Ok(ends)
}

// The terminal histories by their numbers.
fn ends_in_order(
    alloc: Global,
    game: &Game,
    items: &Histories,
    nodes: &[NodeId],
) -> Result<Vec<End>, AllocError>
    requires unfolded { items.now ≡ unfolded (game_model game.now) }
    requires nodes { nodes.now ≡ map (λ h. node_id (node_of (game_model game.now) h)) (histories (game_model game.now)) }
    ensures { IfOk result (λ e. e.items
        ≡ map (end_in (game_model game.now)) (terminal_histories (game_model game.now))) }
{
    let mut ends = Vec::new(alloc);
    for number in 0..items.count() {
        if let Some(end) = end_at(game, items, nodes, number) {
            ends.push(end)?;
        }
    }
    Ok(ends)
}

// The history with a number, if it is terminal.
fn end_at(game: &Game, items: &Histories, nodes: &[NodeId], number: u32) -> Option<End>
    requires unfolded { items.now ≡ unfolded (game_model game.now) }
    requires nodes { nodes.now ≡ map (λ h. node_id (node_of (game_model game.now) h)) (histories (game_model game.now)) }
    requires there { number < length items.now.items }
    ensures { result
        ≡ (if is_terminal (game_model game.now) (slice_index_or (histories (game_model game.now)) number [])
        then Some (end_in (game_model game.now) (slice_index_or (histories (game_model game.now)) number []))
        else None) }
{
    if leads_on(game, items, HistoryId(number)) {
        return None;
    }
    Some(End {
        node: nodes[number as usize].0,
        history: number,
    })
}
