//! The histories of Kuhn poker with three cards.
ghost use Rattle.std.specs.Prelude.{◌≡◌, ◌<◌, length, None, IfOk, OnOk};
ghost use Rattle.lab_defs_game.specs.Unfolding.{unfold_fault};
ghost use Rattle.lab_world.specs.Games.{game_model};
ghost use Rattle.lab_unfold.specs.Values.{unfolded};

use lab_game_texts::kuhn_text;
use lab_text::read_game;
use lab_unfold::{Histories, HistoryId, Item, Step, last_seen, unfold};
use lab_world::{Game, WorldId};
use std::alloc::Global;
use std::test::Fail;

/// The game.
pub fn kuhn(alloc: Global) -> Result<Game, Fail> {
    let text = kuhn_text(alloc)?;
    let bytes = text.as_bytes();
    if bytes.len() >= 1 << 32 {
        return Err(Fail::new("the text is long"));
    }
    Ok(read_game(alloc, bytes)?)
}

/// The histories of a game.
pub fn histories_of(alloc: Global, game: &Game) -> Result<Histories, Fail>
    ensures value { IfOk result (λ h. h ≡ unfolded (game_model game.now)) }
    ensures none { OnOk result (unfold_fault (game_model game.now) ≡ None) }
{
    Ok(unfold(alloc, game)?)
}

/// The history with a number.
pub fn history_at(histories: &Histories, number: u32) -> Result<HistoryId, Fail>
    ensures { IfOk result (λ h. h.0 < length histories.now.items) }
{
    if number < histories.count() {
        Ok(HistoryId(number))
    } else {
        Err(Fail::new("no history"))
    }
}

#[test]
fn reports_the_scale(rt: HostRuntime) -> Result<(), Fail> {
    let game = kuhn(rt.alloc())?;
    let histories = histories_of(rt.alloc(), &game)?;
    assert_eq!(rt; histories.count(), 55);
    assert_eq!(rt; histories.scale().k, 6);
    assert_eq!(rt; histories.scale().most1, 2);
    assert_eq!(rt; histories.scale().most2, 1);
    Ok(())
}

#[test]
fn reports_a_history(rt: HostRuntime) -> Result<(), Fail> {
    let game = kuhn(rt.alloc())?;
    let histories = histories_of(rt.alloc(), &game)?;
    // The cards 1 and 2; seat 1 checks, seat 2 bets, and seat 1 folds and loses 1.
    let last = history_at(&histories, 43)?;
    assert_eq!(rt; histories.item(last).parent, Some(HistoryId(20)));
    assert_eq!(rt; histories.item(last).world, WorldId(26));
    assert_eq!(rt; histories.item(last).depth, 4);
    assert_eq!(rt; histories.chance(last), 1);
    Ok(())
}

#[test]
fn finds_longer_histories(rt: HostRuntime) -> Result<(), Fail> {
    let game = kuhn(rt.alloc())?;
    let histories = histories_of(rt.alloc(), &game)?;
    let root = history_at(&histories, 0)?;
    for (outcome, wanted) in [(0, Some(HistoryId(1))), (5, Some(HistoryId(6))), (6, None)] {
        let step = Step {
            place1: 0,
            place2: 0,
            outcome,
        };
        assert_eq!(rt; histories.child(root, &step), wanted, "outcome {outcome}");
    }
    Ok(())
}

#[test]
fn reports_payoffs(rt: HostRuntime) -> Result<(), Fail> {
    let game = kuhn(rt.alloc())?;
    let histories = histories_of(rt.alloc(), &game)?;
    let root = history_at(&histories, 0)?;
    let last = history_at(&histories, 43)?;
    assert_eq!(rt; histories.payoff(root), 0);
    assert_eq!(rt; histories.payoff(last), -1);
    Ok(())
}

#[test]
fn finds_the_first_histories_of_nodes_and_sets(rt: HostRuntime) -> Result<(), Fail> {
    let game = kuhn(rt.alloc())?;
    let histories = histories_of(rt.alloc(), &game)?;
    // Seat 1 has checked and seat 2 has bet in the histories 20, 24, .. 40; seat 1 has the card 1 in 20 and 24, seat 2
    // the card 2 in 20 and 40.
    assert_eq!(rt; histories.node_firsts().get(40).copied(), Some(20));
    assert_eq!(rt; histories.set_firsts(1).get(24).copied(), Some(20));
    assert_eq!(rt; histories.set_firsts(1).get(40).copied(), Some(36));
    assert_eq!(rt; histories.set_firsts(2).get(40).copied(), Some(20));
    Ok(())
}

#[test]
fn reports_what_a_seat_sees_last(rt: HostRuntime) -> Result<(), Fail> {
    let game = kuhn(rt.alloc())?;
    let histories = histories_of(rt.alloc(), &game)?;
    let bet = history_at(&histories, 20)?;
    let item = Item {
        action: 0,
        own: 0,
        public: 5,
    };
    assert_eq!(rt; last_seen(&game, &histories, 1, bet), Some(item));
    let root = history_at(&histories, 0)?;
    assert_eq!(rt; last_seen(&game, &histories, 1, root), None);
    Ok(())
}
