//! What a form holds and walks, against lists that are written out.

ghost use Rattle.std.specs.Prelude.{◌≡◌, length, IfOk};

use crate::*;
use lab_units::Worth;
use std::alloc::Global;
use std::test::Fail;

#[test]
fn holds_what_it_was_given_room_for(rt: HostRuntime) -> Result<(), Fail> {
    let Ok(form) = Form::with_room(rt.alloc(), 2, 1) else {
        return Err(Fail::new("no memory"));
    };
    let mut form = form;
    let root = FormSet {
        parent: None,
        actions: 2,
        first_weight: 0,
    };
    let later = FormSet {
        parent: Some((SetId(0), 1)),
        actions: 1,
        first_weight: 2,
    };
    form.add_set(1, root);
    form.add_set(1, later);
    form.add_set(2, root);
    form.add_row(FormRow {
        worth: Worth(-3),
        last: [Some((SetId(1), 0)), Some((SetId(0), 1))],
        pads: [0, 1],
    });
    assert_eq!(rt; form.sets(1), [root, later].as_slice());
    assert!(rt; form.spare_sets(1) == 0 && form.spare_sets(2) == 1 && form.spare_rows() == 0);
    form.clear();
    assert!(rt; form.rows().is_empty() && form.spare_sets(1) == 2 && form.spare_rows() == 1);
    Ok(())
}

macro_rules! set {
    ($parent:expr, $actions:expr, $first_weight:expr) => {
        FormSet {
            parent: $parent,
            actions: $actions,
            first_weight: $first_weight,
        }
    };
}

macro_rules! row {
    ($one:expr, $two:expr) => {
        FormRow {
            worth: Worth(1),
            last: [$one, $two],
            pads: [0, 0],
        }
    };
}

fn is_walk(chain: Chain<'_>, numbers: &[u32]) -> bool {
    let mut chain = chain;
    for number in numbers {
        if chain.next() != Some(*number) {
            return false;
        }
    }
    chain.next().is_none()
}

/// A form of two seats: a set with two children, a pass before a decision, and a row without a step of seat 2.
fn two_seats(alloc: Global) -> Result<Form, NoMemory>
    ensures one { IfOk result (λ f. length f.sets1 ≡ 4) }
    ensures two { IfOk result (λ f. length f.sets2 ≡ 2) }
{
    let mut form = Form::with_room(alloc, 8, 8)?;
    form.add_set(1, set!(None, 2, 0));
    form.add_set(1, set!(Some((SetId(0), 1)), 1, 2));
    form.add_set(1, set!(Some((SetId(1), 0)), 3, 2));
    form.add_set(1, set!(Some((SetId(0), 0)), 2, 5));
    form.add_set(2, set!(None, 1, 0));
    form.add_set(2, set!(None, 2, 0));
    form.add_row(row!(Some((SetId(2), 2)), Some((SetId(1), 1))));
    form.add_row(row!(Some((SetId(1), 0)), Some((SetId(0), 0))));
    form.add_row(row!(Some((SetId(2), 0)), None));
    Ok(form)
}

#[test]
fn walks_children_and_rows_and_numbers_decisions(rt: HostRuntime) -> Result<(), Fail> {
    let Ok(form) = two_seats(rt.alloc()) else {
        return Err(Fail::new("no memory"));
    };
    assert!(rt; is_walk(form.children(1, None), &[0]));
    assert!(rt; is_walk(form.children(1, Some(SetId(0))), &[3, 1]));
    assert!(rt; is_walk(form.children(1, Some(SetId(1))), &[2]));
    assert!(rt; is_walk(form.children(1, Some(SetId(2))), &[]));
    assert!(rt; is_walk(form.children(2, None), &[1, 0]));
    assert!(rt; is_walk(form.rows_at(1, None), &[]));
    assert!(rt; is_walk(form.rows_at(1, Some(SetId(1))), &[1]));
    assert!(rt; is_walk(form.rows_at(1, Some(SetId(2))), &[2, 0]));
    assert!(rt; is_walk(form.rows_at(2, None), &[2]));
    assert!(rt; is_walk(form.rows_at(2, Some(SetId(0))), &[1]));
    assert!(rt; is_walk(form.rows_at(2, Some(SetId(1))), &[0]));
    assert_eq!(rt; form.decisions_above(1), [0, 2, 2, 1].as_slice());
    assert_eq!(rt; form.decisions_above(2), [0, 0].as_slice());
    assert_eq!(rt; form.sets_above(1), [0, 1, 1, 1].as_slice());
    assert_eq!(rt; form.sets_above(2), [0, 0].as_slice());
    assert_eq!(rt; form.deciding_sets(1), [0, 2, 3].as_slice());
    assert_eq!(rt; form.deciding_sets(2), [1].as_slice());
    assert_eq!(rt; form.last_decisions(), [[5, 2], [2, 0], [3, 0]].as_slice());
    Ok(())
}

#[test]
fn walks_what_comes_after_it_was_cleared(rt: HostRuntime) -> Result<(), Fail> {
    let Ok(form) = Form::with_room(rt.alloc(), 1, 1) else {
        return Err(Fail::new("no memory"));
    };
    let mut form = form;
    form.add_set(1, set!(None, 2, 0));
    form.add_row(row!(Some((SetId(0), 1)), None));
    form.clear();
    form.add_set(2, set!(None, 3, 0));
    form.add_row(row!(None, Some((SetId(0), 2))));
    assert!(rt; is_walk(form.children(1, None), &[]) && is_walk(form.children(2, None), &[0]));
    assert!(rt;
        is_walk(form.rows_at(1, None), &[0]) && is_walk(form.rows_at(2, Some(SetId(0))), &[0])
    );
    assert!(rt; form.decisions_above(1).is_empty() && form.sets_above(1).is_empty());
    assert!(rt; form.deciding_sets(1).is_empty() && form.deciding_sets(2).len() == 1);
    assert_eq!(rt; form.last_decisions(), [[0, 3]].as_slice());
    Ok(())
}
