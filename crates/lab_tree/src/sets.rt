//! The information sets of a seat, at nodes and inside subgames.

ghost use Rattle.std.specs.Prelude.{◌≡◌, ◌<◌, ◌≤◌, ◌+◌, [], None, Some, length, slice_index, slice_index_or, slice_range, IfOk};
ghost use Rattle.std.specs.Option.{IsSome};
ghost use Rattle.lab_defs_game.specs.Recall.{recall_fault};
ghost use Rattle.lab_defs_game.specs.Unfolding.{unfold_fault};
ghost use Rattle.lab_world.specs.Games.{game_model};
ghost use Rattle.lab_world.specs.Seats.{seat_number};
ghost use Rattle.lab_unfold.specs.Values.{unfolded};
ghost use Rattle.lab_tree.specs.Decisions.{set_decisions};
ghost use Rattle.lab_tree.specs.NodeValues.{nodes_in};
ghost use Rattle.lab_tree.specs.SetValues.{sets_in, AreBounds};

use super::decisions::decision_counts;
use super::nodes::Nodes;
use super::numbered_sets::{NumberedSets, numbered_sets};
use super::set_starts::{spans, starts};
use super::subgame_row::SeatPart;
use crate::{NodeId, SetInfo};
use lab_form::{SetId, Span};
use lab_unfold::{Histories, HistoryId};
use lab_world::{Game, Seat};
use std::alloc::{AllocError, Global};
use std::marker::Model;

/// The sets of a seat in order, how many decisions are on the way up to each, the set of each history that is not terminal, where the sets of each node start, and the sets inside each subgame.
#[derive(Drop)]
pub struct SeatSets {
    sets: Vec<SetInfo>,
    decisions: Vec<u32>,
    of: Vec<Option<SetId>>,
    starts: Vec<u32>,
    spans: Vec<Span>,
}

impl Model for SeatSets {
    ghost use Rattle.std.specs.Prelude.{◌≡◌};
    ghost use Rattle.lab_tree.specs.Decisions.{set_decisions};
    ghost use Rattle.lab_tree.specs.SetValues.{SetsValue, sets_between, AreBounds};

    ghost Value = { SetsValue };

    ghost view = { λ s. record { sets = s.sets.items; set_of = s.of.items; starts = s.starts.items; node_sets = sets_between s.sets.items s.starts.items; spans = s.spans.items } };

    ghost invariant = { λ s. AreBounds s.sets.items s.starts.items × (s.decisions.items ≡ set_decisions s.sets.items) };
}

impl SeatSets {
    /// The sets of a seat.
    pub fn build(
        alloc: Global,
        game: &Game,
        histories: &Histories,
        seat: Seat,
        nodes: &Nodes,
    ) -> Result<SeatSets, AllocError>
        requires unfolded { histories.now ≡ unfolded (game_model game.now) }
        requires accepted { unfold_fault (game_model game.now) ≡ None }
        requires recall { recall_fault (game_model game.now) ≡ None }
        requires nodes { nodes.now ≡ nodes_in (game_model game.now) }
        ensures { IfOk result (λ s. s ≡ sets_in (game_model game.now) (seat_number seat)) }
    {
        let NumberedSets { sets, of } = numbered_sets(
            alloc,
            game,
            histories,
            seat,
            nodes.all_of(),
        )?;
        let decisions = decision_counts(alloc, sets.as_slice())?;
        let starts = starts(alloc, sets.as_slice(), nodes.count())?;
        let spans = spans(alloc, starts.as_slice(), nodes.ends())?;
        Ok(SeatSets {
            sets,
            decisions,
            of,
            starts,
            spans,
        })
    }

    /// The sets in order.
    pub fn sets(&self) -> &[SetInfo]
        ensures { result.now ≡ self.now.sets }
    {
        self.sets.as_slice()
    }

    /// For each set how many deciding sets the way up to it has, it included.
    pub fn decisions(&self) -> &[u32]
        ensures { result.now ≡ set_decisions self.now.sets }
    {
        self.decisions.as_slice()
    }

    /// The set of a history that is not terminal.
    pub fn set_of(&self, history: HistoryId) -> SetId
        requires there { history.0 < length self.now.set_of }
        requires some { IsSome (slice_index_or self.now.set_of history.0 None) }
        ensures { slice_index_or self.now.set_of history.0 None ≡ Some result }
    {
        match self.of[history.0 as usize] {
            Some(set) => set,
            None => unreachable!(),
        }
    }

    /// The set of each history, none where it is terminal.
    pub fn all_of(&self) -> &[Option<SetId>]
        ensures { result.now ≡ self.now.set_of }
    {
        self.of.as_slice()
    }

    /// For each number of a node, and for that after them, how many sets are at nodes before it.
    pub fn starts(&self) -> &[u32]
        ensures { result.now ≡ self.now.starts }
    {
        self.starts.as_slice()
    }

    /// The sets at a node.
    pub fn node_sets(&self, node: NodeId) -> &[SetInfo]
        requires { node.0 < length self.now.node_sets }
        ensures { result.now ≡ slice_index_or self.now.node_sets node.0 [] }
    {
        between(
            self.sets.as_slice(),
            self.starts.as_slice(),
            node.0 as usize,
        )
    }

    /// The sets inside the subgame of a node.
    pub fn span(&self, node: NodeId) -> Span
        requires { node.0 < length self.now.spans }
        ensures { result ≡ slice_index_or self.now.spans node.0 (record { from = 0; to = 0 }) }
    {
        self.spans[node.0 as usize]
    }

    /// What the subgame of a node takes of the seat, which has at most so many decisions on a row.
    pub fn part(&self, node: NodeId, most: u32) -> SeatPart<'_>
        requires { node.0 < length self.now.spans }
        ensures sets { result.sets.now ≡ self.now.sets }
        ensures decisions { result.decisions.now ≡ set_decisions self.now.sets }
        ensures span { result.span ≡ slice_index_or self.now.spans node.0 (record { from = 0; to = 0 }) }
        ensures most { result.most ≡ most }
    {
        SeatPart {
            sets: self.sets(),
            decisions: self.decisions(),
            span: self.span(node),
            most,
        }
    }
}

// The sets from where those of a node start up to where those of the next one do.
fn between<'a>(sets: &'a [SetInfo], starts: &[u32], node: usize) -> &'a [SetInfo]
    requires bounds { AreBounds sets.now starts.now }
    requires there { node + 1 < length starts.now }
    ensures { result.now ≡ slice_range sets.now (slice_index starts.now node) (slice_index starts.now (node + 1)) }
{
    &sets[starts[node] as usize..starts[node + 1] as usize]
}
