//! A table of bounds.

ghost use Rattle.std.specs.Prelude.{◌≡◌, ◌⊎◌, ◌↔◌, ◌<◌, ◌≤◌, ◌+◌, ◌^◌, length, map, slice_index, unsigned_abs, All, IfOk, OnOk, Err};
ghost use Rattle.std.specs.List.{range_with_len};
ghost use Rattle.lab_defs_game.specs.Seats.{other};
ghost use Rattle.lab_defs_value.specs.Bounds.{at, through, Holds, Tight};
ghost use Rattle.lab_form.specs.Forms.{sets_of};
ghost use Rattle.lab_table.specs.Tables.{seat_actions, AreWeights};
ghost use Rattle.lab_best.specs.Values.{strategy_in, numbers, best_values, IsSmallFor};
ghost use Rattle.lab_bounds.specs.Tables.{bounded_in, AreOf, IsFirstBroken};
ghost use Rattle.lab_bounds.specs.declared.broken.Broken.{Broken};

use super::broken::{Broken, first_broken};
use lab_best::{action_values, best_table};
use lab_form::{Form, SetId, other};
use lab_table::Table;
use lab_units::Worth;
use std::alloc::Global;
use std::marker::Model;

/// No memory was left.
#[derive(Clone, Copy, Debug, PartialEq, Eq)]
pub struct NoMemory;

/// A bound for each information set of the keeper's opponent, in the units of the keeper's worths.
#[derive(Drop)]
pub struct BoundTable {
    keeper: u32,
    bounds: Vec<Worth>,
}

impl Model for BoundTable {
    ghost use Rattle.lab_defs_game.specs.Seats.{IsSeat};
    ghost use Rattle.lab_best.specs.Values.{numbers};
    ghost use Rattle.lab_bounds.specs.Tables.{BoundsValue};

    ghost Value = { BoundsValue };

    ghost view = { λ b. record { keeper = b.keeper; bounds = numbers b.bounds.items } };

    ghost invariant = { λ b. IsSeat b.keeper };
}

impl BoundTable {
    /// The least bounds that hold of a keeper's table on a grid of `d`: the most that any reply earns at each set.
    pub fn fresh(
        alloc: Global,
        form: &Form,
        keeper: u32,
        d: u32,
        table: &Table,
    ) -> Result<Self, NoMemory>
        requires keeper { (keeper ≡ 1) ⊎ (keeper ≡ 2) }
        requires small { IsSmallFor keeper d form.now }
        requires weights { AreWeights d (seat_actions form.now keeper) table.now.weights }
        ensures bounds { IfOk result (λ b. b ≡ record { keeper = keeper; bounds = best_values (strategy_in form.now keeper d table.now.weights) }) }
        ensures tight { IfOk result (λ b. Tight (strategy_in form.now keeper d table.now.weights) (at b.bounds)) }
    {
        let count = form.sets(other(keeper)).len();
        let Ok(bounds) = vec![in alloc; Worth(0); count] else {
            return Err(NoMemory);
        };
        let mut bounds = bounds;
        best_table(form, keeper, d, table.weights(), bounds.as_mut_slice());
        Ok(BoundTable { keeper, bounds })
    }

    /// These bounds, one for each set of the keeper's opponent.
    pub fn given(
        alloc: Global,
        form: &Form,
        keeper: u32,
        bounds: &[Worth],
    ) -> Result<Self, NoMemory>
        requires keeper { (keeper ≡ 1) ⊎ (keeper ≡ 2) }
        requires count { length bounds.now ≡ length (sets_of form.now (other keeper)) }
        ensures { IfOk result (λ b. b ≡ record { keeper = keeper; bounds = numbers bounds.now }) }
    {
        let Ok(bounds) = Vec::from_slice(alloc, bounds) else {
            return Err(NoMemory);
        };
        Ok(BoundTable { keeper, bounds })
    }

    /// The bound of a set.
    pub fn at(&self, set: SetId) -> Worth
        requires { set.0 < length self.now.bounds }
        ensures { result.0 ≡ at self.now.bounds set.0 }
    {
        self.bounds[set.0 as usize]
    }

    /// The bound of the first set: what the keeper loses at most.
    pub fn root(&self) -> Worth
        requires { 0 < length self.now.bounds }
        ensures { result.0 ≡ at self.now.bounds 0 }
    {
        self.bounds[0]
    }

    /// What an action of a set backs up by the bounds: those of the sets that follow it directly, and what the rows that end with it are
    /// worth to the opponent of the keeper's table on a grid of `d`.
    pub fn through(&self, form: &Form, d: u32, table: &Table, set: SetId, action: u32) -> Worth
        requires of { AreOf form.now d table.now self.now }
        requires set { set.0 < length self.now.bounds }
        requires action { action < slice_index (seat_actions form.now (other self.now.keeper)) set.0 }
        ensures { result.0 ≡ through (bounded_in form.now d table.now self.now) (at self.now.bounds) set.0 action }
    {
        let mut worth = [Worth(0)];
        self.write_through(form, d, table, set, action, &mut worth);
        worth[0]
    }

    /// Checks that no action backs up more than the bound of its set.
    pub fn holds(&self, form: &Form, d: u32, table: &Table) -> Result<(), Broken>
        requires of { AreOf form.now d table.now self.now }
        ensures holds { OnOk result (Holds (bounded_in form.now d table.now self.now) (at self.now.bounds)) }
        ensures broken { (b : Broken) → (result ≡ Err b)
            ↔ IsFirstBroken (bounded_in form.now d table.now self.now) (at self.now.bounds) b.set.0 b.action b.over.0 }
    {
        match first_broken(self, form, d, table) {
            Some(broken) => Err(broken),
            None => Ok(()),
        }
    }

    // The seat whose strategy the bounds are of.
    pub(crate) fn keeper(&self) -> u32
        ensures keeper { result ≡ self.now.keeper }
        ensures seat { (result ≡ 1) ⊎ (result ≡ 2) }
    {
        self.keeper
    }

    // How many bounds there are.
    pub(crate) fn len(&self) -> u32
        requires { length self.now.bounds ≤ 2 ^ 16 }
        ensures { result ≡ length self.now.bounds }
    {
        self.bounds.len() as u32
    }

    // Writes what each action of a set, from one on, backs up.
    pub(crate) fn write_through(
        &self,
        form: &Form,
        d: u32,
        table: &Table,
        set: SetId,
        first: u32,
        out: &mut [Worth],
    )
        requires of { AreOf form.now d table.now self.now }
        requires set { set.0 < length self.now.bounds }
        requires actions { first + length out.old ≤ slice_index (seat_actions form.now (other self.now.keeper)) set.0 }
        ensures values { numbers out.new ≡ map (through (bounded_in form.now d table.now self.now) (at self.now.bounds) set.0) (range_with_len first (length out.old)) }
        ensures sizes { All (λ w. unsigned_abs w.0 ≤ 2 ^ 117) out.new }
    {
        action_values(
            form,
            self.keeper,
            d,
            table.weights(),
            self.bounds.as_slice(),
            set,
            first,
            out,
        );
    }
}
