//! Allowances and gadgets, against numbers that are worked out by hand.

use crate::items::{row, set, step};
use crate::single::on_single;
use crate::two::on_two;
use lab_cfrd::Cfrd;
use lab_margin::Margin;
use lab_reach::Reach;
use lab_rule::{Rule, RuleName};
use lab_units::Worth;
use std::test::Fail;

#[test]
fn each_rule_has_its_name(rt: HostRuntime) -> Result<(), Fail> {
    assert!(rt; Cfrd.name() == RuleName::Cfrd);
    assert!(rt; Margin.name() == RuleName::Margin);
    assert!(rt; Reach.name() == RuleName::Reach);
    Ok(())
}

#[test]
fn the_opponent_follows_or_takes_its_bound(rt: HostRuntime) -> Result<(), Fail> {
    let mut out = [Worth(9); 2];
    let gadget = on_two(rt.alloc(), &Cfrd, &mut out)?;
    assert_eq!(rt; out, [Worth(0), Worth(0)]);
    let sets = [
        set(None, 2, 0),
        set(None, 2, 2),
        set(step(0, 1), 2, 4),
        set(step(1, 1), 1, 6),
    ];
    assert_eq!(rt; gadget.sets(1), [set(None, 2, 0)].as_slice());
    assert_eq!(rt; gadget.sets(2), sets.as_slice());
    let rows = [
        row(2, step(0, 0), step(2, 0), [0, 0]),
        row(-3, step(0, 1), step(2, 1), [0, 0]),
        row(1, step(0, 0), step(3, 0), [0, 1]),
        row(-1, None, step(0, 0), [0, 1]),
        row(-3, None, step(1, 0), [0, 1]),
    ];
    assert_eq!(rt; gadget.rows(), rows.as_slice());
    Ok(())
}

#[test]
fn the_opponent_chooses_at_the_price_of_a_bound(rt: HostRuntime) -> Result<(), Fail> {
    let mut out = [Worth(9); 2];
    let gadget = on_two(rt.alloc(), &Margin, &mut out)?;
    assert_eq!(rt; out, [Worth(0), Worth(0)]);
    let sets = [
        set(None, 2, 0),
        set(step(0, 0), 2, 2),
        set(step(0, 1), 1, 4),
    ];
    assert_eq!(rt; gadget.sets(2), sets.as_slice());
    let rows = [
        row(2, step(0, 0), step(1, 0), [0, 0]),
        row(-3, step(0, 1), step(1, 1), [0, 0]),
        row(1, step(0, 0), step(2, 0), [0, 1]),
        row(1, None, step(0, 0), [0, 1]),
        row(3, None, step(0, 1), [0, 1]),
    ];
    assert_eq!(rt; gadget.rows(), rows.as_slice());
    Ok(())
}

#[test]
fn what_was_given_up_is_shared(rt: HostRuntime) -> Result<(), Fail> {
    let mut out = [Worth(9); 2];
    let gadget = on_two(rt.alloc(), &Reach, &mut out)?;
    assert_eq!(rt; out, [Worth(2), Worth(1)]);
    let bounds = [
        row(-3, None, step(0, 0), [0, 1]),
        row(-4, None, step(1, 0), [0, 1]),
    ];
    assert!(rt; gadget.rows().ends_with(&bounds));
    Ok(())
}

#[test]
fn a_single_root_set_is_followed_or_left(rt: HostRuntime) -> Result<(), Fail> {
    let mut out = [Worth(9); 1];
    let gadget = on_single(rt.alloc(), &Cfrd, &mut out)?;
    assert_eq!(rt; out, [Worth(0)]);
    let sets = [set(None, 2, 0), set(step(0, 1), 2, 2)];
    assert_eq!(rt; gadget.sets(2), sets.as_slice());
    Ok(())
}

#[test]
fn a_single_root_set_leaves_no_choice(rt: HostRuntime) -> Result<(), Fail> {
    let mut out = [Worth(9); 1];
    let gadget = on_single(rt.alloc(), &Margin, &mut out)?;
    assert_eq!(rt; out, [Worth(0)]);
    let sets = [set(None, 1, 0), set(step(0, 0), 2, 0)];
    assert_eq!(rt; gadget.sets(2), sets.as_slice());
    let rows = [
        row(1, step(0, 0), step(1, 0), [0, 0]),
        row(-1, step(0, 1), step(1, 1), [0, 0]),
        row(4, None, step(0, 0), [0, 1]),
    ];
    assert_eq!(rt; gadget.rows(), rows.as_slice());
    Ok(())
}

#[test]
fn a_game_gives_nothing_up(rt: HostRuntime) -> Result<(), Fail> {
    let mut out = [Worth(9); 1];
    let gadget = on_single(rt.alloc(), &Reach, &mut out)?;
    assert_eq!(rt; out, [Worth(0)]);
    assert_eq!(rt;
        gadget.rows().last().copied(),
        Some(row(-4, None, step(0, 0), [0, 1]))
    );
    Ok(())
}
