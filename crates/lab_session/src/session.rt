//! A session on a game.

ghost use Rattle.std.specs.Prelude.{◌≡◌, ◌≢◌, IfOk, OnOk, IfErr, OnErr, Err, Some, None};
ghost use Rattle.lab_defs_game.specs.Accepted.{IsAccepted};
ghost use Rattle.lab_defs_game.specs.Forms.{form_of};
ghost use Rattle.lab_defs_game.specs.Seats.{IsSeat};
ghost use Rattle.lab_defs_value.specs.Expectation.{expectation_of_uniform, expectation_units};
ghost use Rattle.lab_defs_report.specs.Commands as command;
ghost use Rattle.lab_defs_report.specs.Headline.{start};
ghost use Rattle.lab_defs_report.specs.States.{table_of as weights_of};
ghost use Rattle.lab_form.specs.Forms.{form_model};
ghost use Rattle.lab_tree.specs.Trees.{tree_of};
ghost use Rattle.lab_world.specs.Games.{game_model};
ghost use Rattle.lab_session.specs.Answers.{Steps, Finds, IsLowest, command_of, expect_words, blueprint_words, bound_words, show_words};
ghost use Rattle.lab_session.specs.Sessions.{IsStartFault, IsFew, IsTableOf, AreBoundsOf, IsBoundOf, AreBoundsNow, IsExpectedNow, AreGuarded};

use super::blueprint::first_sides;
use super::board::Board;
use super::side::{Side, Sides};
use crate::{How, SessionFault, StartFault};
use lab_bounds::BoundTable;
use lab_form::Form;
use lab_table::Table;
use lab_tree::Tree;
use lab_units::Fraction;
use lab_world::Game;
use std::alloc::Global;
use std::marker::Model;

/// A game with its tree and form and, from the blueprint on, the strategies of both seats.
#[derive(Drop)]
pub struct Session {
    alloc: Global,
    board: Board,
    /// What seat 1 expects where both seats split evenly.
    even: Fraction,
    sides: Option<Sides>,
}

impl Model for Session {
    ghost use Rattle.std.specs.Option.{option_map};
    ghost use Rattle.lab_defs_report.specs.States.{State};
    ghost use Rattle.lab_session.specs.Kept.{IsSession, profile_in};

    ghost Value = { State };

    ghost view = { λ s. record { game = s.board; profile = option_map profile_in s.sides } };

    ghost invariant = { λ s. IsSession s.board s.even s.sides };
}

impl Session {
    ghost use Rattle.lab_session.specs.Kept.{AreSides, IsSideOf, profile_in};

    /// A session on a game before its first command: all the memory that its commands need but the blueprint.
    pub fn start(alloc: Global, game: Game) -> Result<Session, StartFault>
        ensures session { IfOk result (λ s. s ≡ start (game_model game)) }
        ensures accepted { OnOk result (IsAccepted (game_model game)) }
        ensures fault { IfErr result (λ f. IsStartFault game f) }
    {
        let board = Board::start(alloc, game)?;
        let even = board.expected_evenly();
        Ok(Session {
            alloc,
            board,
            even,
            sides: None,
        })
    }

    /// What seat 1 expects where both seats split evenly.
    pub fn expect_uniform(&mut self) -> Result<Fraction, SessionFault>
        ensures step { Steps expect_words self.old command.expect_uniform self.new result }
        ensures value { IfOk result (λ f. IsLowest f (expectation_of_uniform self.old.game) (expectation_units self.old.game)) }
        ensures memory { result ≢ Err SessionFault.Memory }
    {
        Ok(self.even)
    }

    /// Gives both seats their first strategies, and returns the bounds on what each can lose.
    pub fn blueprint(&mut self, how: How<'_>) -> Result<(Fraction, Fraction), SessionFault>
        requires few { IsFew how }
        ensures step { Steps (λ r. blueprint_words r.0 r.1) self.old (command_of how.entry) self.new result }
        ensures bounds { IfOk result (λ r. AreBoundsNow self.new r.0 r.1) }
        ensures guarded { OnOk result (AreGuarded self.new) }
    {
        if self.sides.is_some() {
            return Err(SessionFault::SecondBlueprint);
        }
        let sides = first_sides(self.alloc, &self.board, how)?;
        let bounds = (
            self.board.bound(1, &sides.one),
            self.board.bound(2, &sides.two),
        );
        self.sides = Some(sides);
        Ok(bounds)
    }

    /// The bound on what a seat can lose: the most that any reply of the other seat earns, and some pure reply earns it.
    pub fn bound(&self, seat: u32) -> Result<Fraction, SessionFault>
        ensures step { Steps (bound_words seat) self.now (command.bound seat) self.now result }
        ensures value { Finds (λ p f. IsBoundOf self.now.game p seat f) self.now seat result }
        ensures memory { result ≢ Err SessionFault.Memory }
    {
        let side = self.side(seat)?;
        Ok(self.board.bound(seat, side))
    }

    /// What seat 1 expects.
    pub fn expect(&self) -> Result<Fraction, SessionFault>
        ensures step { Steps expect_words self.now command.expect self.now result }
        ensures value { IfOk result (λ f. IsExpectedNow self.now f) }
        ensures memory { result ≢ Err SessionFault.Memory }
    {
        let sides = self.sides()?;
        Ok(self.board.expected(&sides.one.table, &sides.two.table))
    }

    /// The weights of a seat's strategy at its deciding sets, in set order.
    pub fn show(&self, seat: u32) -> Result<&[u32], SessionFault>
        ensures step { Steps (λ w. show_words seat w.now) self.now (command.show seat) self.now result }
        ensures weights { Finds (λ p w. w.now ≡ weights_of p seat) self.now seat result }
        ensures memory { result ≢ Err SessionFault.Memory }
    {
        let side = self.side(seat)?;
        Ok(side.table.weights())
    }

    /// The game, which can be played.
    pub fn game(&self) -> &Game
        ensures game { game_model result.now ≡ self.now.game }
        ensures accepted { IsAccepted self.now.game }
    {
        self.board.game()
    }

    /// Its public tree.
    pub fn tree(&self) -> &Tree
        ensures { result.now ≡ tree_of self.now.game }
    {
        self.board.tree()
    }

    /// Its form.
    pub fn form(&self) -> &Form
        ensures { form_model result.now ≡ form_of self.now.game }
    {
        self.board.form()
    }

    /// The strategy of a seat.
    pub fn table(&self, seat: u32) -> Result<&Table, SessionFault>
        ensures table { Finds (λ p t. IsTableOf self.now.game seat p t.now) self.now seat result }
        ensures memory { result ≢ Err SessionFault.Memory }
    {
        let side = self.side(seat)?;
        Ok(&side.table)
    }

    /// The bounds of a seat's strategy.
    pub fn bounds(&self, seat: u32) -> Result<&BoundTable, SessionFault>
        ensures bounds { Finds (λ p b. AreBoundsOf seat p b.now) self.now seat result }
        ensures memory { result ≢ Err SessionFault.Memory }
    {
        let side = self.side(seat)?;
        Ok(&side.bounds)
    }

    // What is kept of both seats, from the blueprint on.
    fn sides(&self) -> Result<&Sides, SessionFault>
        ensures sides { IfOk result (λ s. AreSides self.now.game s.now) }
        ensures profile { IfOk result (λ s. self.now.profile ≡ Some (profile_in s.now)) }
        ensures none { IfErr result (λ f. f ≡ SessionFault.NoBlueprint) }
        ensures before { OnErr result (self.now.profile ≡ None) }
    {
        match &self.sides {
            Some(sides) => Ok(sides),
            None => Err(SessionFault::NoBlueprint),
        }
    }

    // What is kept of a seat.
    fn side(&self, seat: u32) -> Result<&Side, SessionFault>
        ensures side { Finds (λ p s. IsSideOf self.now.game p seat s.now) self.now seat result }
        ensures seat { OnOk result (IsSeat seat) }
        ensures memory { result ≢ Err SessionFault.Memory }
    {
        let sides = self.sides()?;
        match seat {
            1 => Ok(&sides.one),
            2 => Ok(&sides.two),
            _ => Err(SessionFault::BadSeat),
        }
    }
}
