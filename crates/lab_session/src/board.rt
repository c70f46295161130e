//! A game with what a session has of it, whatever the strategies.

ghost use Rattle.std.specs.Prelude.{◌≡◌, ◌⊎◌, ◌≤◌, ◌<◌, ◌^◌, None, Some, length, IfSome, IfOk, OnOk, IfErr};
ghost use Rattle.lab_defs_game.specs.Accepted.{IsAccepted};
ghost use Rattle.lab_defs_game.specs.Forms.{form_of, game_actions};
ghost use Rattle.lab_defs_game.specs.Seats.{grid_of};
ghost use Rattle.lab_defs_value.specs.Bounds.{at, bound_units, tight_bounds};
ghost use Rattle.lab_defs_value.specs.Expectation.{expectation, expectation_units, expectation_of_uniform};
ghost use Rattle.lab_defs_value.specs.Tables.{weight_count};
ghost use Rattle.lab_defs_report.specs.States.{first_wrong_sum};
ghost use Rattle.lab_form.specs.Forms.{form_model};
ghost use Rattle.lab_form.specs.declared.items.SetId.{SetId};
ghost use Rattle.lab_tree.specs.Trees.{tree_of};
ghost use Rattle.lab_unfold.specs.Values.{unfolded};
ghost use Rattle.lab_world.specs.Games.{game_model};
ghost use Rattle.lab_session.specs.Answers.{IsReduced};
ghost use Rattle.lab_session.specs.Boards.{IsBoard, IsTableFor, even_table};
ghost use Rattle.lab_session.specs.Sessions.{IsStartFault};
ghost use Rattle.lab_session.specs.Solved.{IsSolvedGame, solved_table};
ghost use Rattle.lab_session.specs.declared.fault.SessionFault.TheVariants.{WrongSum};

use super::histories::{no_histories, no_recall};
use super::side::Side;
use super::solve::{averaged, solved};
use super::units::{fraction, most_decisions, power, product};
use crate::{SessionFault, StartFault};
use lab_best::expect;
use lab_bounds::BoundTable;
use lab_form::{Form, NoMemory};
use lab_recall::check_sets;
use lab_regret::Regrets;
use lab_table::{Table, TableGiven};
use lab_tree::{Tree, laws};
use lab_unfold::{Histories, unfold};
use lab_units::Fraction;
use lab_world::Game;
use std::alloc::Global;
use std::marker::Model;

/// A game with its public tree and its form, and the table of each seat that splits its grid evenly.
#[derive(Drop)]
pub struct Board {
    game: Game,
    tree: Tree,
    form: Form,
    even1: Table,
    even2: Table,
}

impl Model for Board {
    ghost use Rattle.lab_defs_text.specs.Games.{GameModel};
    ghost use Rattle.lab_session.specs.Boards.{IsBoard};
    ghost use Rattle.lab_world.specs.Games.{game_model};

    ghost Value = { GameModel };

    ghost view = { λ b. game_model b.game };

    ghost invariant = { λ b. IsBoard (game_model b.game) b.tree b.form b.even1 b.even2 };
}

// The form of a tree, and the table of each seat that splits its grid evenly.
#[derive(Drop)]
struct Parts {
    form: Form,
    even1: Table,
    even2: Table,
}

// Those of the tree of a game that can be played.
fn made_parts(alloc: Global, game: &Game, tree: &Tree) -> Result<Parts, NoMemory>
    requires accepted { IsAccepted (game_model game.now) }
    requires tree { tree.now ≡ tree_of (game_model game.now) }
    ensures { IfOk result (λ p. IsBoard (game_model game.now) tree.now p.form p.even1 p.even2) }
{
    let Ok(form) = tree.form() else {
        return Err(NoMemory);
    };
    laws::forms();
    let even1 = Table::uniform(alloc, &form, 1, game.grid)?;
    let even2 = Table::uniform(alloc, &form, 2, game.grid)?;
    Ok(Parts { form, even1, even2 })
}

impl Board {
    ghost use Rattle.lab_session.specs.Kept.{IsSide};

    /// That of a game, unless it does not unfold or has no perfect recall.
    pub fn start(alloc: Global, game: Game) -> Result<Self, StartFault>
        ensures game { IfOk result (λ b. b ≡ game_model game) }
        ensures accepted { OnOk result (IsAccepted (game_model game)) }
        ensures fault { IfErr result (λ f. IsStartFault game f) }
    {
        let histories = match unfold(alloc, &game) {
            Ok(histories) => histories,
            Err(fault) => return Err(no_histories(game, fault)),
        };
        if let Err(fault) = check_sets(alloc, &game, &histories) {
            return Err(no_recall(game, &histories, fault));
        }
        let Ok(board) = Board::build(alloc, game, histories) else {
            return Err(StartFault::Memory);
        };
        Ok(board)
    }

    // That of a game that can be played, from its histories.
    fn build(alloc: Global, game: Game, histories: Histories) -> Result<Self, NoMemory>
        requires accepted { IsAccepted (game_model game) }
        requires unfolded { histories ≡ unfolded (game_model game) }
        ensures { IfOk result (λ b. b ≡ game_model game) }
    {
        let Ok(tree) = Tree::build(alloc, &game, histories) else {
            return Err(NoMemory);
        };
        let Ok(Parts { form, even1, even2 }) = made_parts(alloc, &game, &tree) else {
            return Err(NoMemory);
        };
        Ok(Board {
            game,
            tree,
            form,
            even1,
            even2,
        })
    }

    /// The game.
    pub fn game(&self) -> &Game
        ensures { game_model result.now ≡ self.now }
    {
        &self.game
    }

    /// Its tree.
    pub fn tree(&self) -> &Tree
        ensures { result.now ≡ tree_of self.now }
    {
        &self.tree
    }

    /// Its form.
    pub fn form(&self) -> &Form
        ensures { form_model result.now ≡ form_of self.now }
    {
        &self.form
    }

    /// How many weights a table of a seat, 1 or 2, has.
    pub fn weight_count(&self, seat: u32) -> u32
        requires { (seat ≡ 1) ⊎ (seat ≡ 2) }
        ensures count { result ≡ weight_count self.now seat }
        ensures few { result ≤ 65536 }
    {
        self.even_split(seat).weights().len() as u32
    }

    /// The table of a seat, 1 or 2, that splits its grid evenly.
    pub fn even(&self, alloc: Global, seat: u32) -> Result<Table, NoMemory>
        requires { (seat ≡ 1) ⊎ (seat ≡ 2) }
        ensures table { IfOk result (λ t. t ≡ even_table self.now seat) }
        ensures is { IfOk result (λ t. IsTableFor self.now seat t) }
    {
        Table::uniform(alloc, &self.form, seat, self.game.grid)
    }

    /// The table of a seat, 1 or 2, with as many weights as it has; none where no memory is left for it.
    pub fn given(
        &self,
        alloc: Global,
        seat: u32,
        weights: &[u32],
    ) -> Result<Option<Table>, SessionFault>
        requires seat { (seat ≡ 1) ⊎ (seat ≡ 2) }
        requires count { length weights.now ≡ weight_count self.now seat }
        requires few { length weights.now < 2 ^ 32 }
        ensures weights { IfOk result (λ o. IfSome o (λ t. t.weights ≡ weights.now)) }
        ensures is { IfOk result (λ o. IfSome o (λ t. IsTableFor self.now seat t)) }
        ensures sums { OnOk result (first_wrong_sum (grid_of self.now seat) 0 (game_actions self.now seat) weights.now ≡ None) }
        ensures wrong { IfErr result (λ f. (set : SetId) × (f ≡ WrongSum seat set)
            × (first_wrong_sum (grid_of self.now seat) 0 (game_actions self.now seat) weights.now ≡ Some set.0)) }
    {
        match Table::given(alloc, &self.form, seat, self.game.grid, weights) {
            Ok(table) => Ok(Some(table)),
            Err(TableGiven::WrongSum { set }) => Err(SessionFault::WrongSum { seat, set }),
            Err(TableGiven::WrongCount { .. }) => unreachable!(),
            Err(TableGiven::Memory) => Ok(None),
        }
    }

    /// The regrets of the game after some rounds of regret matching, at most 4,096.
    pub fn solved(&self, alloc: Global, rounds: u32) -> Result<Regrets, NoMemory>
        requires { rounds ≤ 4096 }
        ensures { IfOk result (IsSolvedGame self.now rounds) }
    {
        let weights = self.weight_count(1).max(self.weight_count(2));
        solved(alloc, &self.form, self.game.grid, weights, rounds)
    }

    /// The average of a seat, 1 or 2, over the rounds that were played.
    pub fn average(
        &self,
        alloc: Global,
        seat: u32,
        rounds: u32,
        regrets: &Regrets,
    ) -> Result<Table, NoMemory>
        requires seat { (seat ≡ 1) ⊎ (seat ≡ 2) }
        requires some { 1 ≤ rounds }
        requires solved { IsSolvedGame self.now rounds regrets.now }
        ensures { IfOk result (λ t. t ≡ solved_table self.now seat rounds) }
    {
        let table = self.even(alloc, seat)?;
        Ok(averaged(&self.form, seat, regrets, table))
    }

    /// A table of a seat, 1 or 2, with its tight bounds.
    pub fn side(&self, alloc: Global, seat: u32, table: Table) -> Result<Side, NoMemory>
        requires seat { (seat ≡ 1) ⊎ (seat ≡ 2) }
        requires table { IsTableFor self.now seat table }
        ensures table { IfOk result (λ s. s.table ≡ table) }
        ensures is { IfOk result (λ s. IsSide self.now seat s) }
    {
        let Ok(bounds) = BoundTable::fresh(alloc, &self.form, seat, self.game.grid, &table) else {
            return Err(NoMemory);
        };
        Ok(Side { table, bounds })
    }

    /// The bound on what a seat, 1 or 2, can lose: that of the opponent's first set.
    pub fn bound(&self, seat: u32, side: &Side) -> Fraction
        requires seat { (seat ≡ 1) ⊎ (seat ≡ 2) }
        requires side { IsSide self.now seat side.now }
        ensures { IsReduced result (at side.now.bounds.bounds 0) (bound_units self.now seat) }
    {
        let units = self.bound_units(seat);
        fraction(side.bounds.root(), units)
    }

    /// What seat 1 expects by a table of each seat.
    pub fn expected(&self, one: &Table, two: &Table) -> Fraction
        requires one { IsTableFor self.now 1 one.now }
        requires two { IsTableFor self.now 2 two.now }
        ensures { IsReduced result (expectation (grid_of self.now 1) (grid_of self.now 2) (form_of self.now) one.now.weights two.now.weights) (expectation_units self.now) }
    {
        let grid = self.game.grid;
        let grids = [grid, grid];
        let value = expect(&self.form, grids, one.weights(), two.weights());
        fraction(value, self.expectation_units())
    }

    /// What seat 1 expects by the tables that split evenly.
    pub fn expected_evenly(&self) -> Fraction
        ensures { IsReduced result (expectation_of_uniform self.now) (expectation_units self.now) }
    {
        self.expected(self.even_split(1), self.even_split(2))
    }

    // The table of a seat that splits its grid evenly.
    fn even_split(&self, seat: u32) -> &Table
        requires { (seat ≡ 1) ⊎ (seat ≡ 2) }
        ensures table { result.now ≡ even_table self.now seat }
        ensures is { IsTableFor self.now seat result.now }
        ensures accepted { IsAccepted self.now }
    {
        if seat == 1 { &self.even1 } else { &self.even2 }
    }

    // The units of a seat's bounds.
    fn bound_units(&self, seat: u32) -> u128
        requires { (seat ≡ 1) ⊎ (seat ≡ 2) }
        ensures units { result ≡ bound_units self.now seat }
        ensures some { 1 ≤ result }
        ensures small { result ≤ 2 ^ 64 }
        ensures accepted { IsAccepted self.now }
    {
        let scale = *self.tree.histories().scale();
        let power = power(self.game.grid, most_decisions(scale, seat));
        product(scale.k, power, 1)
    }

    // The units of an expectation.
    fn expectation_units(&self) -> u128
        ensures units { result ≡ expectation_units self.now }
        ensures some { 1 ≤ result }
        ensures small { result ≤ 2 ^ 64 }
    {
        let scale = *self.tree.histories().scale();
        let grid = self.game.grid;
        product(scale.k, power(grid, scale.most1), power(grid, scale.most2))
    }
}
