//! The public tree of a game.

ghost use Rattle.std.specs.Prelude.{◌≡◌, ◌⊎◌, ◌<◌, ◌≤◌, ◌^◌, unsigned_abs, All, [], None, Some, length, slice_index_or, IfOk, SomeIff};
ghost use Rattle.std.specs.Option.{IsSome};
ghost use Rattle.lab_defs_game.specs.Recall.{recall_fault};
ghost use Rattle.lab_defs_game.specs.Unfolding.{unfold_fault};
ghost use Rattle.lab_world.specs.Games.{game_model};
ghost use Rattle.lab_world.specs.Seats.{seat_number};
ghost use Rattle.lab_unfold.specs.Values.{unfolded};
ghost use Rattle.lab_form.specs.Forms.{actions_in, form_model};
ghost use Rattle.lab_tree.specs.TreeForms.{form_sets, tree_form};
ghost use Rattle.lab_tree.specs.TreeSubgames.{rows_inside, tree_subgame, FitsRoom};
ghost use Rattle.lab_tree.specs.TreeParts.{parts_in, AreSeatParts, IsSeatValue};
ghost use Rattle.lab_tree.specs.Trees.{node_id, seat_of, tree_of};

use super::forms::form_of;
use super::nodes::Nodes;
use super::paths::SeatPaths;
use super::rows::Rows;
use super::sets::SeatSets;
use super::subgame::{add_inner_rows, add_inner_sets};
use crate::{NodeId, PathWalk, RowInfo, SetInfo};
use lab_form::{Form, SetId, Span};
use lab_table::Table;
use lab_unfold::{Histories, HistoryId};
use lab_world::{Game, Seat};
use std::alloc::{AllocError, Global};
use std::marker::Model;

/// No memory was left.
#[derive(Clone, Copy, Debug, PartialEq, Eq)]
pub struct NoMemory;

/// The public tree of a game: its histories, nodes, information sets and rows.
#[derive(Drop)]
pub struct Tree {
    alloc: Global,
    histories: Histories,
    nodes: Nodes,
    one: SeatSets,
    two: SeatSets,
    paths1: SeatPaths,
    paths2: SeatPaths,
    rows: Rows,
}

impl Model for Tree {
    ghost use Rattle.lab_tree.specs.TreeParts.{tree_with, AreParts};
    ghost use Rattle.lab_tree.specs.Trees.{TreeValue};

    ghost Value = { TreeValue };

    ghost view = { λ t. tree_with (record { unfolded = t.histories; nodes = t.nodes; one = t.one; two = t.two; paths1 = t.paths1; paths2 = t.paths2; node_rows = t.rows }) };

    ghost invariant = { λ t. AreParts (record { unfolded = t.histories; nodes = t.nodes; one = t.one; two = t.two; paths1 = t.paths1; paths2 = t.paths2; node_rows = t.rows }) };
}

// The parts of a tree beside its histories.
#[derive(Drop)]
struct Parts {
    nodes: Nodes,
    one: SeatSets,
    two: SeatSets,
    paths1: SeatPaths,
    paths2: SeatPaths,
    rows: Rows,
}

// Those of a game.
fn made_parts(alloc: Global, game: &Game, histories: &Histories) -> Result<Parts, AllocError>
    requires unfolded { histories.now ≡ unfolded (game_model game.now) }
    requires accepted { unfold_fault (game_model game.now) ≡ None }
    requires recall { recall_fault (game_model game.now) ≡ None }
    ensures { IfOk result (λ p. record { unfolded = histories.now; nodes = p.nodes; one = p.one; two = p.two; paths1 = p.paths1; paths2 = p.paths2; node_rows = p.rows }
        ≡ parts_in (game_model game.now)) }
{
    let nodes = Nodes::build(alloc, game, histories)?;
    let one = SeatSets::build(alloc, game, histories, Seat::One, &nodes)?;
    let two = SeatSets::build(alloc, game, histories, Seat::Two, &nodes)?;
    let paths1 = SeatPaths::build(alloc, &one, nodes.parents())?;
    let paths2 = SeatPaths::build(alloc, &two, nodes.parents())?;
    let rows = Rows::build(
        alloc,
        game,
        histories,
        nodes.count(),
        nodes.all_of(),
        one.all_of(),
        two.all_of(),
    )?;
    Ok(Parts {
        nodes,
        one,
        two,
        paths1,
        paths2,
        rows,
    })
}

impl Tree {
    /// The tree of a game with perfect recall, from its histories.
    pub fn build(alloc: Global, game: &Game, histories: Histories) -> Result<Tree, NoMemory>
        requires unfolded { histories ≡ unfolded (game_model game.now) }
        requires accepted { unfold_fault (game_model game.now) ≡ None }
        requires recall { recall_fault (game_model game.now) ≡ None }
        ensures { IfOk result (λ t. t ≡ tree_of (game_model game.now)) }
    {
        let Ok(
            Parts {
                nodes,
                one,
                two,
                paths1,
                paths2,
                rows,
            },
        ) = made_parts(alloc, game, &histories)
        else {
            return Err(NoMemory);
        };
        Ok(Tree {
            alloc,
            histories,
            nodes,
            one,
            two,
            paths1,
            paths2,
            rows,
        })
    }

    /// The histories of the game.
    pub fn histories(&self) -> &Histories
        ensures { result.now ≡ self.now.unfolded }
    {
        &self.histories
    }

    /// How many nodes there are.
    pub fn node_count(&self) -> u32
        ensures { result ≡ length self.now.nodes }
    {
        self.nodes.count()
    }

    /// The node with a number, where there is one.
    pub fn find_node(&self, number: u32) -> Option<NodeId>
        ensures { SomeIff result (number < length self.now.nodes) (node_id number) }
    {
        if number < self.nodes.count() {
            Some(NodeId(number))
        } else {
            None
        }
    }

    /// The node of a history.
    pub fn node_of(&self, history: HistoryId) -> NodeId
        requires { history.0 < length self.now.unfolded.items }
        ensures { result ≡ slice_index_or self.now.node_of history.0 (node_id 0) }
    {
        self.nodes.node_of(history)
    }

    /// How many steps the histories of a node have.
    pub fn depth(&self, node: NodeId) -> u32
        requires { node.0 < length self.now.nodes }
        ensures { result ≡ length (slice_index_or self.now.nodes node.0 []) }
    {
        self.nodes.depth(node)
    }

    /// The sets of a seat, 1 or 2, at a node.
    pub fn node_sets(&self, seat: u32, node: NodeId) -> &[SetInfo]
        requires seat { (seat ≡ 1) ⊎ (seat ≡ 2) }
        requires there { node.0 < length self.now.nodes }
        ensures { result.now ≡ slice_index_or (seat_of self.now seat).node_sets node.0 [] }
    {
        self.seat(Seat::of(seat)).node_sets(node)
    }

    /// The terminal histories of a node.
    pub fn node_rows(&self, node: NodeId) -> &[RowInfo]
        requires { node.0 < length self.now.nodes }
        ensures { result.now ≡ slice_index_or self.now.node_rows node.0 [] }
    {
        self.rows.at(node)
    }

    /// The sets of a seat, 1 or 2, inside the subgame of a node.
    pub fn span(&self, seat: u32, node: NodeId) -> Span
        requires seat { (seat ≡ 1) ⊎ (seat ≡ 2) }
        requires there { node.0 < length self.now.nodes }
        ensures { result ≡ slice_index_or (seat_of self.now seat).spans node.0 (record { from = 0; to = 0 }) }
    {
        self.seat(Seat::of(seat)).span(node)
    }

    /// The set of a seat, 1 or 2, at a history that is not terminal.
    pub fn set_of(&self, seat: u32, history: HistoryId) -> SetId
        requires seat { (seat ≡ 1) ⊎ (seat ≡ 2) }
        requires there { history.0 < length self.now.unfolded.items }
        requires some { IsSome (slice_index_or (seat_of self.now seat).set_of history.0 None) }
        ensures { slice_index_or (seat_of self.now seat).set_of history.0 None ≡ Some result }
    {
        self.seat(Seat::of(seat)).set_of(history)
    }

    /// The sets of a seat, 1 or 2, at each node from the root to this one, in their order, from either end.
    pub fn path(&self, seat: u32, node: NodeId) -> PathWalk<'_>
        requires seat { (seat ≡ 1) ⊎ (seat ≡ 2) }
        requires there { node.0 < length self.now.nodes }
        ensures { result ≡ slice_index_or (seat_of self.now seat).paths node.0 [] }
    {
        let (paths, sets) = match Seat::of(seat) {
            Seat::One => (&self.paths1, &self.one),
            Seat::Two => (&self.paths2, &self.two),
        };
        PathWalk::to(
            paths.items(),
            sets.starts(),
            self.nodes.parents(),
            paths.bases(),
            node,
        )
    }

    /// The form of the game: its sets, and its rows node by node.
    pub fn form(&self) -> Result<Form, NoMemory>
        ensures { IfOk result (λ f. f ≡ tree_form self.now) }
    {
        let scale = self.histories.scale();
        form_of(
            self.alloc,
            &self.one,
            &self.two,
            self.rows.all(),
            [scale.most1, scale.most2],
        )
    }

    /// Writes the form of the subgame of a node for a keeper, seat 1 or 2, in place of what a form holds; its room stays. In a row's worth
    /// the keeper's weights by a table before the node are counted in. No memory is taken.
    pub fn write_subgame(&self, keeper: u32, node: NodeId, table: &Table, form: &mut Form)
        requires keeper { (keeper ≡ 1) ⊎ (keeper ≡ 2) }
        requires there { node.0 < length self.now.nodes }
        requires table { table.now.actions ≡ actions_in (form_sets (seat_of self.now keeper).sets) }
        requires room { FitsRoom (tree_subgame self.now keeper node.0 table.now.weights form.old.set_room form.old.row_room) }
        requires small { All (λ z. unsigned_abs z.worth ≤ 2 ^ 64)
            (form_model (tree_subgame self.now keeper node.0 table.now.weights form.old.set_room form.old.row_room)).rows }
        ensures { form.new ≡ tree_subgame self.now keeper node.0 table.now.weights form.old.set_room form.old.row_room }
    {
        let scale = self.histories.scale();
        let one = self.one.part(node, scale.most1);
        let two = self.two.part(node, scale.most2);
        form.clear();
        add_inner_sets(form, 1, one.sets, one.span);
        add_inner_sets(form, 2, two.sets, two.span);
        add_inner_rows(
            form,
            self.rows_inside(node),
            keeper,
            table.weights(),
            &one,
            &two,
        );
    }

    // The rows of the nodes inside the subgame of a node.
    fn rows_inside(&self, node: NodeId) -> &[RowInfo]
        requires { node.0 < length self.now.nodes }
        ensures { result.now ≡ rows_inside self.now node.0 }
    {
        self.rows
            .between(node.0, self.nodes.ends()[node.0 as usize])
    }

    // The sets of a seat.
    fn seat(&self, seat: Seat) -> &SeatSets
        ensures value { IsSeatValue (seat_of self.now (seat_number seat)) result.now }
        ensures parts { AreSeatParts (length self.now.unfolded.items) (length self.now.nodes) result.now }
    {
        match seat {
            Seat::One => &self.one,
            Seat::Two => &self.two,
        }
    }
}
