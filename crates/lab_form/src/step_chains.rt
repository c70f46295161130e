//! Chains of numbers, one for each set of a seat and one for none.

ghost use Rattle.std.specs.Prelude.{◌≡◌, ◌<◌, ◌≤◌, [], length, slice_index_or, IfOk};
ghost use Rattle.lab_form.specs.Columns.{
  empty_chains,
  with_place,
  with_number,
  place_of,
  place_of_step,
};

use super::chain::Chain;
use super::form::NoMemory;
use super::room::push;
use crate::SetId;
use std::alloc::Global;
use std::marker::Model;

/// Numbers from 0 on, each chained at a place: 0, or one more than a set's number.
#[derive(Drop)]
pub struct StepChains {
    /// For each place the last number there plus one, 0 where there is none.
    heads: Vec<u32>,
    /// For each number the one before it at its place plus one, 0 where there is none.
    links: Vec<u32>,
    set_room: u32,
    item_room: u32,
}

impl Model for StepChains {
    ghost use Rattle.std.specs.Prelude.{◌≤◌, ◌+◌, map, length, vec_capacity};
    ghost use Rattle.lab_form.specs.Columns.{ChainsValue, AreHeads, chained};

    ghost Value = { ChainsValue };

    ghost view = { λ c. record { lists = map (chained c.links.items) c.heads.items; count = length c.links.items; set_room = c.set_room; item_room = c.item_room } };

    ghost invariant = { λ c. AreHeads c.heads.items c.links.items
        × (length c.heads.items ≤ c.set_room + 1) × (c.set_room + 1 ≤ vec_capacity c.heads)
        × (length c.links.items ≤ c.item_room) × (c.item_room ≤ vec_capacity c.links) };
}

/// The place of a set, 0 for none.
pub fn place(set: Option<SetId>) -> usize
    ensures { result ≡ place_of set }
{
    match set {
        Some(set) => set.0 as usize + 1,
        None => 0,
    }
}

/// The place of a step's set, 0 for no step.
pub fn step_place(step: Option<(SetId, u32)>) -> usize
    ensures { result ≡ place_of_step step }
{
    match step {
        Some((set, _)) => set.0 as usize + 1,
        None => 0,
    }
}

impl StepChains {
    /// One place with no number, with room for so many more places and so many numbers.
    pub fn with_room(alloc: Global, sets: u32, items: u32) -> Result<Self, NoMemory>
        ensures { IfOk result (λ c. c ≡ empty_chains sets items) }
    {
        let Ok(heads) = Vec::with_capacity(alloc, sets as usize + 1) else {
            return Err(NoMemory);
        };
        let Ok(links) = Vec::with_capacity(alloc, items as usize) else {
            return Err(NoMemory);
        };
        let mut heads = heads;
        push(&mut heads, 0);
        Ok(StepChains {
            heads,
            links,
            set_room: sets,
            item_room: items,
        })
    }

    /// Leaves one place with no number; the room stays.
    pub fn clear(&mut self)
        ensures { self.new ≡ empty_chains self.old.set_room self.old.item_room }
    {
        self.heads.clear();
        self.links.clear();
        push(&mut self.heads, 0);
    }

    /// Adds a place with no number.
    pub fn add_place(&mut self)
        requires { length self.old.lists ≤ self.old.set_room }
        ensures { self.new ≡ with_place self.old }
    {
        push(&mut self.heads, 0);
    }

    /// Adds the next number, at a place.
    pub fn add(&mut self, place: usize)
        requires place { place < length self.old.lists }
        requires room { self.old.count < self.old.item_room }
        ensures { self.new ≡ with_number self.old place }
    {
        let number = self.links.len() as u32;
        push(&mut self.links, self.heads[place]);
        self.heads[place] = number + 1;
    }

    /// The numbers at a place, from the last to the first.
    pub fn chain(&self, place: usize) -> Chain<'_>
        requires { place < length self.now.lists }
        ensures { result ≡ slice_index_or self.now.lists place [] }
    {
        Chain::from(self.links.as_slice(), self.heads[place])
    }
}
