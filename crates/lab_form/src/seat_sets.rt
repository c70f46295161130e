//! The information sets of one seat, with what is found of each when it is added.

ghost use Rattle.std.specs.Prelude.{◌≡◌, ◌<◌, ◌^◌, [], length, slice_index_or, IfOk};
ghost use Rattle.lab_form.specs.Forms.{AreSets, AreShort, IsNextSet, IsStepBelow};
ghost use Rattle.lab_form.specs.Chains.{children_of, IsSetThere};
ghost use Rattle.lab_form.specs.Decisions.{
  short_decision,
  decisions_above,
  last_set,
  sets_above,
  deciding_sets,
};
ghost use Rattle.lab_form.specs.Columns.{empty_seat, seat_with_set, seat_with_row, place_of};

use super::chain::Chain;
use super::decision::{last_decision, last_set};
use super::form::NoMemory;
use super::room::{push, push_where};
use super::step_chains::{StepChains, place, step_place};
use crate::{FormSet, SetId};
use std::alloc::Global;
use std::marker::Model;

/// The sets of a seat, for each the last decision above it and the set of that, which of them decide, and the chains of the
/// children and of the rows of each.
#[derive(Drop)]
pub struct SeatSets {
    sets: Vec<FormSet>,
    above: Vec<u32>,
    over: Vec<u32>,
    deciding: Vec<u32>,
    children: StepChains,
    rows: StepChains,
    set_room: u32,
}

impl Model for SeatSets {
    ghost use Rattle.std.specs.Prelude.{◌<◌, ◌≤◌, ◌^◌, vec_capacity};
    ghost use Rattle.lab_form.specs.Columns.{SeatValue, AreColumns};

    ghost Value = { SeatValue };

    ghost view = { λ s. record { sets = s.sets.items; rows = s.rows; set_room = s.set_room } };

    ghost invariant = { λ s. AreColumns s.sets.items s.above.items s.over.items s.deciding.items s.children s.rows s.set_room
        × (s.set_room ≤ vec_capacity s.sets) × (s.set_room ≤ vec_capacity s.above)
        × (s.set_room ≤ vec_capacity s.over) × (s.set_room ≤ vec_capacity s.deciding) × (s.set_room < 2 ^ 32) };
}

impl SeatSets {
    /// No sets, with room for so many, and for the chains of so many rows.
    pub fn with_room(alloc: Global, sets: u32, rows: u32) -> Result<Self, NoMemory>
        ensures { IfOk result (λ s. s ≡ empty_seat sets rows) }
    {
        let Ok(held) = Vec::with_capacity(alloc, sets as usize) else {
            return Err(NoMemory);
        };
        let Ok(above) = Vec::with_capacity(alloc, sets as usize) else {
            return Err(NoMemory);
        };
        let Ok(over) = Vec::with_capacity(alloc, sets as usize) else {
            return Err(NoMemory);
        };
        let Ok(deciding) = Vec::with_capacity(alloc, sets as usize) else {
            return Err(NoMemory);
        };
        let children = StepChains::with_room(alloc, sets, sets)?;
        let rows = StepChains::with_room(alloc, sets, rows)?;
        Ok(SeatSets {
            sets: held,
            above,
            over,
            deciding,
            children,
            rows,
            set_room: sets,
        })
    }

    /// Removes all sets and rows; the room stays.
    pub fn clear(&mut self)
        ensures { self.new ≡ empty_seat self.old.set_room self.old.rows.item_room }
    {
        self.sets.clear();
        self.above.clear();
        self.over.clear();
        self.deciding.clear();
        self.children.clear();
        self.rows.clear();
    }

    /// Adds a set after the sets.
    pub fn add(&mut self, set: FormSet)
        requires room { length self.old.sets < self.old.set_room }
        requires next { IsNextSet self.old.sets set }
        ensures { self.new ≡ seat_with_set self.old set }
    {
        let above = self.last_decision(set.parent);
        let over = self.last_set(set.parent);
        let number = self.sets.len() as u32;
        push(&mut self.above, above);
        push(&mut self.over, over);
        push_where(set.actions >= 2, &mut self.deciding, number);
        self.children.add(step_place(set.parent));
        self.children.add_place();
        self.rows.add_place();
        push(&mut self.sets, set);
    }

    /// Adds the next row, by its last step of the seat.
    pub fn add_row(&mut self, step: Option<(SetId, u32)>)
        requires room { self.old.rows.count < self.old.rows.item_room }
        requires step { IsStepBelow self.old.sets step }
        ensures { self.new ≡ seat_with_row self.old step }
    {
        self.rows.add(step_place(step));
    }

    /// The sets.
    pub fn sets(&self) -> &[FormSet]
        ensures sets { result.now ≡ self.now.sets }
        ensures order { AreSets result.now }
        ensures short { AreShort result.now }
        ensures few { length result.now < 2 ^ 32 }
    {
        self.sets.as_slice()
    }

    /// The last decision along the path that ends with a step.
    pub fn last_decision(&self, step: Option<(SetId, u32)>) -> u32
        requires { IsStepBelow self.now.sets step }
        ensures { result ≡ short_decision self.now.sets step }
    {
        last_decision(self.sets.as_slice(), self.above.as_slice(), step)
    }

    /// The set of the last decision along the path that ends with a step, plus one.
    fn last_set(&self, step: Option<(SetId, u32)>) -> u32
        requires { IsStepBelow self.now.sets step }
        ensures { result ≡ last_set self.now.sets step }
    {
        last_set(self.sets.as_slice(), self.over.as_slice(), step)
    }

    /// For each set the set of the last decision above it, plus one.
    pub fn sets_above(&self) -> &[u32]
        ensures { result.now ≡ sets_above self.now.sets }
    {
        self.over.as_slice()
    }

    /// The sets that decide.
    pub fn deciding_sets(&self) -> &[u32]
        ensures { result.now ≡ deciding_sets self.now.sets }
    {
        self.deciding.as_slice()
    }

    /// For each set the last decision above it.
    pub fn decisions_above(&self) -> &[u32]
        ensures { result.now ≡ decisions_above self.now.sets }
    {
        self.above.as_slice()
    }

    /// The numbers of the sets with a parent, from the last to the first; for none, of those without a parent.
    pub fn children(&self, parent: Option<SetId>) -> Chain<'_>
        requires { IsSetThere (length self.now.sets) parent }
        ensures { result ≡ children_of self.now.sets parent }
    {
        self.children.chain(place(parent))
    }

    /// The numbers of the rows at a set, from the last to the first; for none, of those without a step of the seat.
    pub fn rows_at(&self, set: Option<SetId>) -> Chain<'_>
        requires { IsSetThere (length self.now.sets) set }
        ensures { result ≡ slice_index_or self.now.rows.lists (place_of set) [] }
    {
        self.rows.chain(place(set))
    }
}
