//! Best responses and expectations on a small form, against numbers that are worked out by hand.

ghost use Rattle.std.specs.Prelude.{◌≡◌, ◌∷◌, [], IfOk};
ghost use Rattle.lab_defs_value.specs.Smallness.{IsSmall};
ghost use Rattle.lab_form.specs.Forms.{actions_in, form_model};

use crate::*;
use lab_form::{Form, FormRow, FormSet, NoMemory, SetId};
use lab_table::Table;
use lab_units::Worth;
use std::alloc::Global;
use std::test::Fail;

macro_rules! set {
    ($parent:expr, $actions:expr, $first_weight:expr) => {
        FormSet {
            parent: $parent,
            actions: $actions,
            first_weight: $first_weight,
        }
    };
}

macro_rules! row {
    ($worth:expr, $one:expr, $two:expr, $pads:expr) => {
        FormRow {
            worth: Worth($worth),
            last: [$one, $two],
            pads: $pads,
        }
    };
}

/// Seat 1 decides once. Seat 2 decides, passes after action 1, and then decides again.
fn three_replies(alloc: Global) -> Result<Form, NoMemory>
    ensures one { IfOk result (λ f. actions_in f.sets1 ≡ 2 ∷ []) }
    ensures two { IfOk result (λ f. actions_in f.sets2 ≡ 3 ∷ 1 ∷ 2 ∷ []) }
    ensures small { IfOk result (λ f. IsSmall 4 2 (form_model f)) }
    ensures small_for_one { IfOk result (λ f. IsSmall 4 1 (form_model f)) }
{
    let mut form = Form::with_room(alloc, 4, 8)?;
    form.add_set(1, set!(None, 2, 0));
    form.add_set(2, set!(None, 3, 0));
    form.add_set(2, set!(Some((SetId(0), 1)), 1, 3));
    form.add_set(2, set!(Some((SetId(1), 0)), 2, 3));
    form.add_row(row!(2, Some((SetId(0), 0)), Some((SetId(0), 0)), [0, 1]));
    form.add_row(row!(-3, Some((SetId(0), 1)), Some((SetId(0), 0)), [0, 1]));
    form.add_row(row!(1, Some((SetId(0), 0)), Some((SetId(2), 0)), [0, 0]));
    form.add_row(row!(-2, Some((SetId(0), 1)), Some((SetId(2), 1)), [0, 0]));
    form.add_row(row!(-1, None, Some((SetId(0), 2)), [1, 1]));
    Ok(form)
}

#[test]
fn best_values_are_backed_up_from_the_last_set(rt: HostRuntime) -> Result<(), Fail> {
    let Ok(form) = three_replies(rt.alloc()) else {
        return Err(Fail::new("no memory"));
    };
    let Ok(table) = Table::given(rt.alloc(), &form, 1, 4, &[1, 3]) else {
        return Err(Fail::new("no table"));
    };
    let mut values = [Worth(9); 3];
    best_table(&form, 1, 4, table.weights(), &mut values);
    assert_eq!(rt; values, [Worth(7), Worth(6), Worth(6)]);
    let mut actions = [9u32; 3];
    best_reply(&form, 1, 4, table.weights(), &mut values, &mut actions);
    assert_eq!(rt; values, [Worth(7), Worth(6), Worth(6)]);
    assert_eq!(rt; actions, [0, 0, 1]);
    Ok(())
}

#[test]
fn the_first_of_equal_actions_is_taken(rt: HostRuntime) -> Result<(), Fail> {
    let Ok(form) = three_replies(rt.alloc()) else {
        return Err(Fail::new("no memory"));
    };
    let Ok(table) = Table::given(rt.alloc(), &form, 1, 4, &[2, 2]) else {
        return Err(Fail::new("no table"));
    };
    let mut values = [Worth(0); 3];
    let mut actions = [9u32; 3];
    best_reply(&form, 1, 4, table.weights(), &mut values, &mut actions);
    assert_eq!(rt; values, [Worth(4), Worth(4), Worth(4)]);
    assert_eq!(rt; actions, [1, 0, 1]);
    Ok(())
}

#[test]
fn actions_are_valued_from_one_on(rt: HostRuntime) -> Result<(), Fail> {
    let Ok(form) = three_replies(rt.alloc()) else {
        return Err(Fail::new("no memory"));
    };
    let Ok(table) = Table::given(rt.alloc(), &form, 1, 4, &[1, 3]) else {
        return Err(Fail::new("no table"));
    };
    let values = [Worth(0), Worth(5), Worth(8)];
    let mut out = [Worth(9); 2];
    action_values(&form, 1, 4, table.weights(), &values, SetId(0), 1, &mut out);
    assert_eq!(rt; out, [Worth(5), Worth(4)]);
    Ok(())
}

#[test]
fn both_seats_weigh_each_row(rt: HostRuntime) -> Result<(), Fail> {
    let Ok(form) = three_replies(rt.alloc()) else {
        return Err(Fail::new("no memory"));
    };
    let Ok(one) = Table::given(rt.alloc(), &form, 1, 4, &[1, 3]) else {
        return Err(Fail::new("no table"));
    };
    let Ok(two) = Table::given(rt.alloc(), &form, 2, 2, &[1, 1, 0, 1, 1]) else {
        return Err(Fail::new("no table"));
    };
    let worth = expect(&form, [4, 2], one.weights(), two.weights());
    assert_eq!(rt; worth, Worth(-19));
    Ok(())
}
