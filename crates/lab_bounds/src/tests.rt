//! Bounds on a small form, against numbers that are worked out by hand.

ghost use Rattle.std.specs.Prelude.{◌≡◌, ◌<◌, ◌≤◌, ◌^◌, ◌∷◌, [], length, unsigned_abs, All, IfOk};
ghost use Rattle.lab_defs_value.specs.Smallness.{IsSmall};
ghost use Rattle.lab_form.specs.Forms.{actions_in, form_model};
ghost use Rattle.lab_table.specs.Tables.{AreWeights};
ghost use Rattle.lab_best.specs.Values.{numbers};
ghost use Rattle.lab_bounds.specs.Tables.{AreOf};

use crate::*;
use lab_form::{Form, FormRow, FormSet, NoMemory, SetId};
use lab_table::Table;
use lab_units::Worth;
use std::alloc::Global;
use std::test::Fail;

macro_rules! set {
    ($parent:expr, $first_weight:expr) => {
        FormSet {
            parent: $parent,
            actions: 2,
            first_weight: $first_weight,
        }
    };
}

macro_rules! row {
    ($worth:expr, $one:expr, $two:expr, $pads:expr) => {
        FormRow {
            worth: Worth($worth),
            last: [$one, $two],
            pads: $pads,
        }
    };
}

// Seat 1 decides once. Seat 2 decides, and after action 1 some plays end and in others it decides again.
fn two_replies(alloc: Global) -> Result<Form, NoMemory>
    ensures one { IfOk result (λ f. actions_in f.sets1 ≡ 2 ∷ []) }
    ensures two { IfOk result (λ f. actions_in f.sets2 ≡ 2 ∷ 2 ∷ []) }
    ensures small { IfOk result (λ f. IsSmall 4 1 (form_model f)) }
    ensures small_for_two { IfOk result (λ f. IsSmall 1 2 (form_model f)) }
{
    let mut form = Form::with_room(alloc, 2, 6)?;
    form.add_set(1, set!(None, 0));
    form.add_set(2, set!(None, 0));
    form.add_set(2, set!(Some((SetId(0), 1)), 2));
    form.add_row(row!(2, Some((SetId(0), 0)), Some((SetId(0), 0)), [0, 1]));
    form.add_row(row!(1, Some((SetId(0), 1)), Some((SetId(0), 0)), [0, 1]));
    form.add_row(row!(1, None, Some((SetId(0), 1)), [1, 1]));
    form.add_row(row!(1, Some((SetId(0), 0)), Some((SetId(1), 0)), [0, 0]));
    form.add_row(row!(-1, None, Some((SetId(1), 0)), [1, 0]));
    form.add_row(row!(-2, Some((SetId(0), 1)), Some((SetId(1), 1)), [0, 0]));
    Ok(form)
}

// The table of seat 1 on the grid of 4 that gives its two actions 1 and 3.
fn one_and_three(alloc: Global, form: &Form) -> Result<Table, Fail>
    requires { actions_in form.now.sets1 ≡ 2 ∷ [] }
    ensures { IfOk result (λ t. AreWeights 4 (2 ∷ []) t.weights) }
{
    Ok(Table::given(alloc, form, 1, 4, &[1, 3])?)
}

// Bounds of seat 1 at the two sets of seat 2.
fn bounds_of(
    alloc: Global,
    form: &Form,
    table: &Table,
    bounds: &[Worth],
) -> Result<BoundTable, Fail>
    requires one { actions_in form.now.sets1 ≡ 2 ∷ [] }
    requires two { actions_in form.now.sets2 ≡ 2 ∷ 2 ∷ [] }
    requires small { IsSmall 4 1 (form_model form.now) }
    requires weights { AreWeights 4 (2 ∷ []) table.now.weights }
    requires count { length bounds.now ≡ 2 }
    requires sizes { All (λ w. unsigned_abs w.0 ≤ 2 ^ 100) bounds.now }
    ensures count { IfOk result (λ b. length b.bounds ≡ 2) }
    ensures keeper { IfOk result (λ b. b.keeper ≡ 1) }
    ensures of { IfOk result (AreOf form.now 4 table.now) }
{
    Ok(BoundTable::given(alloc, form, 1, bounds)?)
}

// What an action of a set of seat 2 backs up by these bounds.
fn backed_up(alloc: Global, bounds: &[Worth], set: SetId, action: u32) -> Result<Worth, Fail>
    requires count { length bounds.now ≡ 2 }
    requires sizes { All (λ w. unsigned_abs w.0 ≤ 2 ^ 100) bounds.now }
    requires set { set.0 < 2 }
    requires action { action < 2 }
{
    let form = two_replies(alloc)?;
    let table = one_and_three(alloc, &form)?;
    let bounds = bounds_of(alloc, &form, &table, bounds)?;
    Ok(bounds.through(&form, 4, &table, set, action))
}

// Whether these bounds hold, or which action is the first that breaks them.
fn checked(alloc: Global, bounds: &[Worth]) -> Result<Result<(), Broken>, Fail>
    requires count { length bounds.now ≡ 2 }
    requires sizes { All (λ w. unsigned_abs w.0 ≤ 2 ^ 100) bounds.now }
{
    let form = two_replies(alloc)?;
    let table = one_and_three(alloc, &form)?;
    let bounds = bounds_of(alloc, &form, &table, bounds)?;
    Ok(bounds.holds(&form, 4, &table))
}

#[test]
fn fresh_bounds_are_the_best_values(rt: HostRuntime) -> Result<(), Fail> {
    // Seat 2 has 2 * 3 at the second set by action 1, and -1 + 4 by action 0; at the first one 6 - 4 by action 1, and
    // -2 - 3 by action 0.
    let form = two_replies(rt.alloc())?;
    let table = one_and_three(rt.alloc(), &form)?;
    let bounds = BoundTable::fresh(rt.alloc(), &form, 1, 4, &table)?;
    assert_eq!(rt; bounds.root(), Worth(2));
    assert_eq!(rt; bounds.at(SetId(0)), Worth(2));
    assert_eq!(rt; bounds.at(SetId(1)), Worth(6));
    Ok(())
}

#[test]
fn fresh_bounds_of_the_other_seat(rt: HostRuntime) -> Result<(), Fail> {
    // Against seat 2 action 0 of seat 1 earns 2 * 1 * 2 + 1 * 1 * 2, and action 1 earns 1 * 1 * 2 - 2 * 1 * 0.
    let form = two_replies(rt.alloc())?;
    let table = Table::given(rt.alloc(), &form, 2, 2, &[1, 1, 2, 0])?;
    let bounds = BoundTable::fresh(rt.alloc(), &form, 2, 2, &table)?;
    assert_eq!(rt; bounds.root(), Worth(6));
    Ok(())
}

#[test]
fn actions_back_up_later_bounds_and_rows(rt: HostRuntime) -> Result<(), Fail> {
    let bounds = [Worth(9), Worth(8)];
    let alloc = rt.alloc();
    // Two rows: -2 * 1 - 1 * 3.
    assert_eq!(rt; backed_up(alloc, &bounds, SetId(0), 0)?, Worth(-5));
    // The bound of the second set, and one row, 1 decision short: 8 - 1 * 4.
    assert_eq!(rt; backed_up(alloc, &bounds, SetId(0), 1)?, Worth(4));
    // Two rows, one of them 1 decision short: -1 * 1 + 1 * 4.
    assert_eq!(rt; backed_up(alloc, &bounds, SetId(1), 0)?, Worth(3));
    // One row: 2 * 3.
    assert_eq!(rt; backed_up(alloc, &bounds, SetId(1), 1)?, Worth(6));
    Ok(())
}

#[test]
fn bounds_that_no_action_passes_hold(rt: HostRuntime) -> Result<(), Fail> {
    // The best values, and bounds above them.
    assert_eq!(rt; checked(rt.alloc(), &[Worth(2), Worth(6)])?, Ok(()));
    assert_eq!(rt; checked(rt.alloc(), &[Worth(9), Worth(8)])?, Ok(()));
    Ok(())
}

#[test]
fn the_first_action_past_its_bound_is_reported(rt: HostRuntime) -> Result<(), Fail> {
    // Action 1 of the first set backs up 5 - 4, and action 1 of the second one 6: both are past their bounds.
    let first = Broken {
        set: SetId(0),
        action: 1,
        over: Worth(3),
    };
    assert_eq!(rt; checked(rt.alloc(), &[Worth(-2), Worth(5)])?, Err(first));
    // Only the second set is broken: there action 0 backs up 3, and action 1 backs up 6.
    let second = Broken {
        set: SetId(1),
        action: 0,
        over: Worth(2),
    };
    assert_eq!(rt; checked(rt.alloc(), &[Worth(2), Worth(1)])?, Err(second));
    Ok(())
}
