//! A form with room for sets and rows.

ghost use Rattle.std.specs.Prelude.{◌≡◌, ◌⊎◌, ◌<◌, ◌-◌, ◌^◌, length, IfOk};
ghost use Rattle.lab_form.specs.Forms.{
  sets_of,
  last_of,
  empty_form,
  with_set,
  with_row,
  IsNextSet,
  IsNextRow,
  AreSets,
  AreShort,
  AreRows,
};
ghost use Rattle.lab_form.specs.Chains.{children_of, rows_of, IsSetThere};
ghost use Rattle.lab_form.specs.Decisions.{
  decisions_above,
  row_decisions,
  sets_above,
  deciding_sets,
};
ghost use Rattle.lab_form.specs.Columns.{AreChains};
ghost use Rattle.lab_form.specs.declared.items.FormRow.{FormRow};

use super::room::push;
use super::seat_sets::SeatSets;
use crate::{Chain, FormRow, FormSet, SetId};
use std::alloc::Global;
use std::marker::Model;

/// There was not enough memory.
#[derive(Clone, Copy, Debug, PartialEq, Eq)]
pub struct NoMemory;

/// The information sets of each seat, parents before children, and the rows, with room for so many of each.
#[derive(Drop)]
pub struct Form {
    one: SeatSets,
    two: SeatSets,
    rows: Vec<FormRow>,
    decisions: Vec<[u32; 2]>,
    set_room: u32,
    row_room: u32,
}

impl Model for Form {
    ghost use Rattle.std.specs.Prelude.{◌≤◌, vec_capacity};
    ghost use Rattle.lab_form.specs.Forms.{FormValue};
    ghost use Rattle.lab_form.specs.Columns.{AreKept, form_in};

    ghost Value = { FormValue };

    ghost view = { λ f. form_in f.one f.two f.rows.items f.set_room f.row_room };

    ghost invariant = { λ f. AreKept (form_in f.one f.two f.rows.items f.set_room f.row_room) f.one f.two f.decisions.items
        × (f.row_room ≤ vec_capacity f.rows) × (f.row_room ≤ vec_capacity f.decisions) };
}

impl Form {
    /// An empty form with room for so many sets of each seat, and for so many rows: all the memory that it takes.
    pub fn with_room(alloc: Global, sets: u32, rows: u32) -> Result<Self, NoMemory>
        ensures { IfOk result (λ f. f ≡ empty_form sets rows) }
    {
        let one = SeatSets::with_room(alloc, sets, rows)?;
        let two = SeatSets::with_room(alloc, sets, rows)?;
        let Ok(held) = Vec::with_capacity(alloc, rows as usize) else {
            return Err(NoMemory);
        };
        let Ok(decisions) = Vec::with_capacity(alloc, rows as usize) else {
            return Err(NoMemory);
        };
        Ok(Form {
            one,
            two,
            rows: held,
            decisions,
            set_room: sets,
            row_room: rows,
        })
    }

    /// Makes the form empty; the room stays.
    pub fn clear(&mut self)
        ensures { self.new ≡ empty_form self.old.set_room self.old.row_room }
    {
        self.one.clear();
        self.two.clear();
        self.rows.clear();
        self.decisions.clear();
    }

    /// Adds a set of a seat, 1 or 2, after the seat's sets.
    pub fn add_set(&mut self, seat: u32, set: FormSet)
        requires seat { (seat ≡ 1) ⊎ (seat ≡ 2) }
        requires room { length (sets_of self.old seat) < self.old.set_room }
        requires next { IsNextSet (sets_of self.old seat) set }
        ensures { self.new ≡ with_set self.old seat set }
    {
        if seat == 1 {
            self.one.add(set);
        } else {
            self.two.add(set);
        }
    }

    /// Adds a row after the rows.
    pub fn add_row(&mut self, row: FormRow)
        requires room { length self.old.rows < self.old.row_room }
        requires next { IsNextRow self.old.sets1 self.old.sets2 row }
        ensures { self.new ≡ with_row self.old row }
    {
        let [one, two] = row.last;
        let decisions = [self.one.last_decision(one), self.two.last_decision(two)];
        push(&mut self.decisions, decisions);
        self.one.add_row(one);
        self.two.add_row(two);
        push(&mut self.rows, row);
    }

    /// For how many more sets of a seat, 1 or 2, there is room.
    pub fn spare_sets(&self, seat: u32) -> u32
        requires { (seat ≡ 1) ⊎ (seat ≡ 2) }
        ensures { result ≡ self.now.set_room - length (sets_of self.now seat) }
    {
        self.set_room - self.sets(seat).len() as u32
    }

    /// For how many more rows there is room.
    pub fn spare_rows(&self) -> u32
        ensures { result ≡ self.now.row_room - length self.now.rows }
    {
        self.row_room - self.rows.len() as u32
    }

    /// The sets of a seat, 1 or 2, by their numbers.
    pub fn sets(&self, seat: u32) -> &[FormSet]
        requires { (seat ≡ 1) ⊎ (seat ≡ 2) }
        ensures sets { result.now ≡ sets_of self.now seat }
        ensures order { AreSets result.now }
        ensures short { AreShort result.now }
        ensures few { length result.now < 2 ^ 32 }
    {
        self.seat(seat).sets()
    }

    /// The rows.
    pub fn rows(&self) -> &[FormRow]
        ensures rows { result.now ≡ self.now.rows }
        ensures there { AreRows self.now.sets1 self.now.sets2 result.now }
    {
        self.rows.as_slice()
    }

    /// The numbers of the sets of a seat, 1 or 2, whose parent is at a set, from the last to the first; for none, of those without a parent.
    pub fn children(&self, seat: u32, parent: Option<SetId>) -> Chain<'_>
        requires seat { (seat ≡ 1) ⊎ (seat ≡ 2) }
        requires there { IsSetThere (length (sets_of self.now seat)) parent }
        ensures { result ≡ children_of (sets_of self.now seat) parent }
    {
        self.seat(seat).children(parent)
    }

    /// The numbers of the rows whose last step of a seat, 1 or 2, is at a set, from the last to the first; for none, of those without a step of the seat.
    pub fn rows_at(&self, seat: u32, set: Option<SetId>) -> Chain<'_>
        requires seat { (seat ≡ 1) ⊎ (seat ≡ 2) }
        requires there { IsSetThere (length (sets_of self.now seat)) set }
        ensures { result ≡ rows_of seat self.now.rows set }
    {
        self.seat(seat).rows_at(set)
    }

    /// For each set of a seat, 1 or 2, the last decision above it: the number of the weight of the last step
    /// along its parents at a set with two or more actions, plus one, in 32 bits; 0 where there is none.
    pub fn decisions_above(&self, seat: u32) -> &[u32]
        requires { (seat ≡ 1) ⊎ (seat ≡ 2) }
        ensures { result.now ≡ decisions_above (sets_of self.now seat) }
    {
        self.seat(seat).decisions_above()
    }

    /// For each set of a seat, 1 or 2, the set of the last decision above it: the number of that set plus one; 0 where there is none.
    pub fn sets_above(&self, seat: u32) -> &[u32]
        requires { (seat ≡ 1) ⊎ (seat ≡ 2) }
        ensures { result.now ≡ sets_above (sets_of self.now seat) }
    {
        self.seat(seat).sets_above()
    }

    /// The numbers of the sets of a seat, 1 or 2, that have two or more actions, in order.
    pub fn deciding_sets(&self, seat: u32) -> &[u32]
        requires { (seat ≡ 1) ⊎ (seat ≡ 2) }
        ensures { result.now ≡ deciding_sets (sets_of self.now seat) }
    {
        self.seat(seat).deciding_sets()
    }

    /// For each row the last decision of each seat along it, numbered as those above sets are.
    pub fn last_decisions(&self) -> &[[u32; 2]]
        ensures { result.now ≡ row_decisions self.now.sets1 self.now.sets2 self.now.rows }
    {
        self.decisions.as_slice()
    }

    /// What is kept of a seat, 1 or 2.
    fn seat(&self, seat: u32) -> &SeatSets
        requires { (seat ≡ 1) ⊎ (seat ≡ 2) }
        ensures sets { result.now.sets ≡ sets_of self.now seat }
        ensures rows { AreChains (length (sets_of self.now seat)) (λ (r : FormRow). last_of r seat) self.now.rows result.now.rows }
    {
        if seat == 1 { &self.one } else { &self.two }
    }
}
