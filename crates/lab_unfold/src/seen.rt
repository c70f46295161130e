//! The first of the histories that are seen alike.

ghost use Rattle.std.specs.Prelude.{◌≡◌, ◌⊎◌, ◌≤◌, map, length, IfOk};
ghost use Rattle.lab_defs_game.specs.Histories as model;
ghost use Rattle.lab_world.specs.Games.{game_model};
ghost use Rattle.lab_world.specs.Seats.{seat_number};
ghost use Rattle.lab_unfold.specs.Values.{unfolded, history_in};
ghost use Rattle.lab_unfold.specs.Firsts.{AreFirsts, is_inner, same_tokens, node_first, set_first};
ghost use Rattle.lab_unfold.specs.Links.{AreFirstLists};
ghost use Rattle.lab_unfold.specs.Traces.{traces};

use super::firsts::firsts;
use super::link::Kept;
use super::links::links;
use crate::{Histories, History};
use lab_world::{Game, Seat};
use std::alloc::{AllocError, Global};

/// For each history the numbers of the first one of its node, and of the first ones of its information sets for seat 1 and for seat 2.
/// A terminal history is in no information set: 0 takes the place of its first one.
#[derive(Drop)]
pub struct FirstHistories {
    pub nodes: Vec<u32>,
    pub sets1: Vec<u32>,
    pub sets2: Vec<u32>,
}

/// The first histories of the nodes and information sets of a game.
pub fn first_histories(
    alloc: Global,
    game: &Game,
    items: &[History],
) -> Result<FirstHistories, AllocError>
    requires items { items.now ≡ map (history_in (game_model game.now)) (model.histories (game_model game.now)) }
    requires few { length items.now ≤ 65536 }
    ensures nodes { IfOk result (λ f. f.nodes.items ≡ map (node_first (game_model game.now)) (model.histories (game_model game.now))) }
    ensures sets1 { IfOk result (λ f. f.sets1.items ≡ map (set_first (game_model game.now) 1) (model.histories (game_model game.now))) }
    ensures sets2 { IfOk result (λ f. f.sets2.items ≡ map (set_first (game_model game.now) 2) (model.histories (game_model game.now))) }
{
    let nodes = first_of_nodes(alloc, game, items)?;
    let sets1 = first_of_sets(alloc, game, items, Seat::One)?;
    let sets2 = first_of_sets(alloc, game, items, Seat::Two)?;
    Ok(FirstHistories {
        nodes,
        sets1,
        sets2,
    })
}

// For each history the number of the first one with the same public list.
fn first_of_nodes(alloc: Global, game: &Game, items: &[History]) -> Result<Vec<u32>, AllocError>
    requires items { items.now ≡ map (history_in (game_model game.now)) (model.histories (game_model game.now)) }
    requires few { length items.now ≤ 65536 }
    ensures { IfOk result (λ v. v.items ≡ map (node_first (game_model game.now)) (model.histories (game_model game.now))) }
{
    first_lists(alloc, game, items, Seat::One, Kept::Public)
}

// For each history that is not terminal, the number of the first one of its information set of a seat; 0 for a terminal one.
fn first_of_sets(
    alloc: Global,
    game: &Game,
    items: &[History],
    seat: Seat,
) -> Result<Vec<u32>, AllocError>
    requires items { items.now ≡ map (history_in (game_model game.now)) (model.histories (game_model game.now)) }
    requires few { length items.now ≤ 65536 }
    ensures { IfOk result (λ v. v.items ≡ map (set_first (game_model game.now) (seat_number seat)) (model.histories (game_model game.now))) }
{
    first_lists(alloc, game, items, seat, Kept::Whole)
}

/// For each history that is not terminal, the number of the first such one with the same private and public tokens of a seat, 1 or 2.
/// What takes its place for a terminal history is below the count of histories.
pub fn first_of_tokens(
    alloc: Global,
    game: &Game,
    histories: &Histories,
    seat: u32,
) -> Result<Vec<u32>, AllocError>
    requires unfolded { histories.now ≡ unfolded (game_model game.now) }
    requires seat { (seat ≡ 1) ⊎ (seat ≡ 2) }
    ensures { IfOk result (λ v. AreFirsts (is_inner (game_model game.now)) (same_tokens (game_model game.now) seat) histories.now.histories v.items) }
{
    first_lists(alloc, game, histories.items(), Seat::of(seat), Kept::Tokens)
}

// For each history the number of the first one of which the same is kept.
fn first_lists(
    alloc: Global,
    game: &Game,
    items: &[History],
    seat: Seat,
    kept: Kept,
) -> Result<Vec<u32>, AllocError>
    requires items { items.now ≡ map (history_in (game_model game.now)) (model.histories (game_model game.now)) }
    requires few { length items.now ≤ 65536 }
    ensures { IfOk result (λ v. AreFirstLists (traces (game_model game.now) (seat_number seat) kept) v.items) }
{
    let links = links(alloc, game, items, seat, kept)?;
    firsts(alloc, links.as_slice())
}
