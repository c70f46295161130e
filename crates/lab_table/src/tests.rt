//! Roundings of shares, and tables of a small form, against numbers that are written out.

ghost use Rattle.std.specs.Prelude.{◌≡◌, ◌≤◌, ◌∷◌, [], length, replicate, IfOk};
ghost use Rattle.lab_defs_value.specs.Splices.{spliced};
ghost use Rattle.lab_form.specs.Forms.{actions_in};
ghost use Rattle.lab_table.specs.Tables.{weights_between};

use super::*;
use lab_form::{Form, FormSet, NoMemory, SetId, Span};
use lab_units::Worth;
use std::alloc::Global;
use std::test::Fail;

#[test]
fn shares_become_weights(rt: HostRuntime) {
    let mut two = [0u32; 2];
    rounded(&[Worth(5), Worth(1)], 3, &mut two);
    assert_eq!(rt; two, [3, 0]);
    rounded(&[Worth(2), Worth(4)], 3, &mut two);
    assert_eq!(rt; two, [1, 2]);
    let mut three = [0u32; 3];
    rounded(&[Worth(1), Worth(1), Worth(1)], 4096, &mut three);
    assert_eq!(rt; three, [1366, 1365, 1365]);
}

#[test]
fn zeros_become_even_parts(rt: HostRuntime) {
    let mut out = [0u32; 3];
    rounded(&[Worth(0), Worth(0), Worth(0)], 3, &mut out);
    assert_eq!(rt; out, [1, 1, 1]);
    rounded(&[Worth(0), Worth(0), Worth(0)], 4, &mut out);
    assert_eq!(rt; out, [2, 1, 1]);
}

#[test]
fn a_negative_share_counts_as_zero(rt: HostRuntime) {
    let mut out = [0u32; 3];
    rounded(&[Worth(-5), Worth(1), Worth(2)], 10, &mut out);
    assert_eq!(rt; out, [0, 4, 6]);
    rounded(&[Worth(0), Worth(-1), Worth(0)], 8, &mut out);
    assert_eq!(rt; out, [3, 3, 2]);
}

#[test]
fn large_shares_are_rounded_exactly(rt: HostRuntime) {
    let mut out = [0u32; 3];
    rounded(
        &[Worth(0), Worth(1 << 124), Worth(1 << 123)],
        4096,
        &mut out,
    );
    assert_eq!(rt; out, [0, 2731, 1365]);
}

/// A form in which seat 1 has a decision, a pass after it, and a decision after that.
fn three_sets(alloc: Global) -> Result<Form, NoMemory>
    ensures { IfOk result (λ f. actions_in f.sets1 ≡ 2 ∷ 1 ∷ 3 ∷ []) }
{
    let mut form = Form::with_room(alloc, 3, 0)?;
    form.add_set(
        1,
        FormSet {
            parent: None,
            actions: 2,
            first_weight: 0,
        },
    );
    form.add_set(
        1,
        FormSet {
            parent: Some((SetId(0), 1)),
            actions: 1,
            first_weight: 2,
        },
    );
    form.add_set(
        1,
        FormSet {
            parent: Some((SetId(1), 0)),
            actions: 3,
            first_weight: 2,
        },
    );
    Ok(form)
}

#[test]
fn uniform_tables_weigh_decisions_alone(rt: HostRuntime) -> Result<(), Fail> {
    let Ok(form) = three_sets(rt.alloc()) else {
        return Err(Fail::new("no memory"));
    };
    let Ok(table) = Table::uniform(rt.alloc(), &form, 1, 4) else {
        return Err(Fail::new("no memory"));
    };
    assert_eq!(rt; table.weights(), [2, 2, 2, 1, 1].as_slice());
    assert_eq!(rt; table.window(Span { from: 0, to: 1 }), [2, 2].as_slice());
    assert!(rt; table.window(Span { from: 1, to: 2 }).is_empty());
    assert_eq!(rt; table.window(Span { from: 1, to: 3 }), [2, 1, 1].as_slice());
    assert!(rt; table.window(Span { from: 3, to: 3 }).is_empty());
    Ok(())
}

#[test]
fn given_weights_make_a_table_or_are_refused(rt: HostRuntime) -> Result<(), Fail> {
    let Ok(form) = three_sets(rt.alloc()) else {
        return Err(Fail::new("no memory"));
    };
    let Ok(table) = Table::given(rt.alloc(), &form, 1, 3, &[3, 0, 1, 1, 1]) else {
        return Err(Fail::new("no table"));
    };
    assert_eq!(rt; table.weights(), [3, 0, 1, 1, 1].as_slice());
    let few = Table::given(rt.alloc(), &form, 1, 3, &[3, 0, 3]).err();
    assert_eq!(rt;
        few,
        Some(TableGiven::WrongCount {
            needed: 5,
            given: 3
        })
    );
    let both = Table::given(rt.alloc(), &form, 1, 3, &[3, 1, 1, 1, 0]).err();
    assert_eq!(rt; both, Some(TableGiven::WrongSum { set: SetId(0) }));
    let second = Table::given(rt.alloc(), &form, 1, 3, &[3, 0, 1, 1, 2]).err();
    assert_eq!(rt; second, Some(TableGiven::WrongSum { set: SetId(2) }));
    Ok(())
}

/// Makes the weights of a span 0.
fn clear(table: &mut Table, span: Span)
    requires order { span.from ≤ span.to }
    requires end { span.to ≤ length table.old.actions }
    ensures actions { table.new.actions ≡ table.old.actions }
    ensures weights { table.new.weights ≡ spliced table.old.actions span.from span.to table.old.weights
        (replicate (length (weights_between table.old span.from span.to)) 0) }
{
    table.window_mut(span).fill(0);
}

#[test]
fn weights_are_written_where_they_stand(rt: HostRuntime) -> Result<(), Fail> {
    let Ok(form) = three_sets(rt.alloc()) else {
        return Err(Fail::new("no memory"));
    };
    let Ok(table) = Table::uniform(rt.alloc(), &form, 1, 4) else {
        return Err(Fail::new("no memory"));
    };
    let mut table = table;
    clear(&mut table, Span { from: 1, to: 3 });
    assert_eq!(rt; table.weights(), [2, 2, 0, 0, 0].as_slice());
    let window = table.window_mut(Span { from: 0, to: 2 });
    window[1] = 3;
    assert_eq!(rt; table.weights(), [2, 3, 0, 0, 0].as_slice());
    Ok(())
}
