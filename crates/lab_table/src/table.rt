//! The weights of a seat's strategy.

ghost use Rattle.std.specs.Prelude.{◌≡◌, ◌⊎◌, ◌<◌, ◌≤◌, ◌^◌, ◌↔◌, ℕ, length, IfOk, OnOk, Err};
ghost use Rattle.lab_defs_value.specs.Tables.{first_weight, uniform_table};
ghost use Rattle.lab_defs_value.specs.Splices.{FitsSpan};
ghost use Rattle.lab_form.specs.Forms.{sets_of, actions_in, weight_count, AreSets};
ghost use Rattle.lab_form.specs.declared.items.SetId.{SetId};
ghost use Rattle.lab_table.specs.Tables.{seat_actions, table_of, all_weights, weights_between, AreWeights, IsWrongCount, IsFirstWrong};

use super::check::check;
use super::even::uniform_weights;
use super::given::TableGiven;
use super::places::places_of;
use lab_form::{Form, FormSet, NoMemory, Span};
use std::alloc::{AllocError, Global};
use std::marker::Model;

/// The weights of a seat at its deciding sets.
#[derive(Drop)]
pub struct Table {
    weights: Vec<u32>,
    /// The place of the first weight of each set, and of the end.
    places: Vec<u32>,
}

impl Model for Table {
    ghost use Rattle.lab_table.specs.Tables.{TableValue};
    ghost use Rattle.lab_table.specs.Places.{table_at, FitsPlaces};

    ghost Value = { TableValue };

    ghost view = { λ t. table_at t.weights.items t.places.items };

    ghost invariant = { λ t. FitsPlaces (table_at t.weights.items t.places.items) t.places.items };
}

impl Table {
    ghost use Rattle.std.specs.Borrow.{sem};
    ghost use Rattle.lab_table.specs.Lending.{LendsWindow};

    /// The table of a seat, 1 or 2, of a form that splits the grid of `d` evenly at each deciding set.
    pub fn uniform(alloc: Global, form: &Form, seat: u32, d: u32) -> Result<Self, NoMemory>
        requires seat { (seat ≡ 1) ⊎ (seat ≡ 2) }
        requires least { 1 ≤ d }
        requires grid { d ≤ 4096 }
        requires few { weight_count (sets_of form.now seat) < 2 ^ 32 }
        ensures { IfOk result (λ t. t ≡ table_of form.now seat (uniform_table d (seat_actions form.now seat))) }
    {
        let sets = form.sets(seat);
        let Ok(weights) = uniform_weights(alloc, sets, d) else {
            return Err(NoMemory);
        };
        let Ok(table) = Table::of_weights(alloc, sets, weights) else {
            return Err(NoMemory);
        };
        Ok(table)
    }

    /// The table of a seat, 1 or 2, of a form that has these weights. Only weights that make a table need memory.
    pub fn given(
        alloc: Global,
        form: &Form,
        seat: u32,
        d: u32,
        weights: &[u32],
    ) -> Result<Self, TableGiven>
        requires seat { (seat ≡ 1) ⊎ (seat ≡ 2) }
        requires few { weight_count (sets_of form.now seat) < 2 ^ 32 }
        requires few_given { length weights.now < 2 ^ 32 }
        ensures table { IfOk result (λ t. t ≡ table_of form.now seat weights.now) }
        ensures sums { OnOk result (AreWeights d (seat_actions form.now seat) weights.now) }
        ensures wrong_count { (n m : ℕ) → (result ≡ Err (TableGiven.WrongCount n m)) ↔ IsWrongCount (seat_actions form.now seat) weights.now n m }
        ensures wrong_sum { (set : SetId) → (result ≡ Err (TableGiven.WrongSum set)) ↔ IsFirstWrong d (seat_actions form.now seat) weights.now set.0 }
        ensures memory { result ≡ Err TableGiven.Memory → AreWeights d (seat_actions form.now seat) weights.now }
    {
        let sets = form.sets(seat);
        check(sets, d, weights)?;
        let Ok(table) = Table::copied(alloc, sets, weights) else {
            return Err(TableGiven::Memory);
        };
        Ok(table)
    }

    /// The weights.
    pub fn weights(&self) -> &[u32]
        ensures weights { result.now ≡ self.now.weights }
        ensures count { length result.now ≡ all_weights self.now.actions }
    {
        self.weights.as_slice()
    }

    /// The weights at the sets of a span.
    pub fn window(&self, span: Span) -> &[u32]
        requires order { span.from ≤ span.to }
        requires end { span.to ≤ length self.now.actions }
        ensures value { result.now ≡ weights_between self.now span.from span.to }
        ensures fits { FitsSpan self.now.actions span.from span.to self.now.weights result.now }
    {
        let (from, to) = self.places(span);
        &self.weights[from..to]
    }

    /// The weights at the sets of a span, to be written in place.
    pub fn window_mut(&mut self, span: Span) -> &mut [u32]
        requires order { span.from ≤ span.to }
        requires end { span.to ≤ length self.old.actions }
        ensures* writes_back { sem 𝓛 (LendsWindow self.entry span.from result) }
        ensures value { result.now ≡ weights_between self.old span.from span.to }
        ensures fits { FitsSpan self.old.actions span.from span.to self.old.weights result.now }
    {
        let (from, to) = self.places(span);
        self.weights.slice_mut(from..to)
    }

    // A table of copies of as many weights as the sets have.
    fn copied(alloc: Global, sets: &[FormSet], weights: &[u32]) -> Result<Self, AllocError>
        requires order { AreSets sets.now }
        requires few { weight_count sets.now < 2 ^ 32 }
        requires count { length weights.now ≡ weight_count sets.now }
        ensures { IfOk result (λ t. t ≡ record { actions = actions_in sets.now; weights = weights.now }) }
    {
        let weights = Vec::from_slice(alloc, weights)?;
        Table::of_weights(alloc, sets, weights)
    }

    // A table of as many weights as the sets have, with their places.
    fn of_weights(alloc: Global, sets: &[FormSet], weights: Vec<u32>) -> Result<Self, AllocError>
        requires order { AreSets sets.now }
        requires few { weight_count sets.now < 2 ^ 32 }
        requires count { length weights.items ≡ weight_count sets.now }
        ensures { IfOk result (λ t. t ≡ record { actions = actions_in sets.now; weights = weights.items }) }
    {
        let places = places_of(alloc, sets)?;
        Ok(Table { weights, places })
    }

    // Where the weights of a span begin and end.
    fn places(&self, span: Span) -> (usize, usize)
        requires order { span.from ≤ span.to }
        requires end { span.to ≤ length self.now.actions }
        ensures from { result.0 ≡ first_weight self.now.actions span.from }
        ensures to { result.1 ≡ first_weight self.now.actions span.to }
        ensures order { result.0 ≤ result.1 }
        ensures end { result.1 ≤ length self.now.weights }
    {
        let places = self.places.as_slice();
        (
            places[span.from as usize] as usize,
            places[span.to as usize] as usize,
        )
    }
}
