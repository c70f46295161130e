//! Worlds and payoffs read off Kuhn poker with three cards.
use crate::histories::kuhn;
use lab_world::WorldId;
use std::test::Fail;

#[test]
fn reads_a_world(rt: HostRuntime) -> Result<(), Fail> {
    let game = kuhn(rt.alloc())?;
    let Some(deal) = game.world(WorldId(0)) else {
        return Err(Fail::new("no world"));
    };
    assert_eq!(rt; deal.actions(1).len(), 1);
    assert_eq!(rt; deal.actions(2).len(), 1);
    let row = deal.row(0, 0);
    assert_eq!(rt; row.total, 6);
    assert_eq!(rt; row.outcomes.len(), 6);
    let Some(turn) = game.world(WorldId(1)) else {
        return Err(Fail::new("no world"));
    };
    assert_eq!(rt; turn.actions(1).len(), 2);
    assert_eq!(rt; turn.actions(2).len(), 1);
    Ok(())
}

#[test]
fn reads_payoffs(rt: HostRuntime) -> Result<(), Fail> {
    let game = kuhn(rt.alloc())?;
    assert!(rt; game.world(WorldId(26)).is_none());
    assert_eq!(rt; game.payoff(WorldId(26)), -1);
    assert_eq!(rt; game.payoff(WorldId(0)), 0);
    Ok(())
}
