//! The first strategies of both seats by regret matching on the whole game.

ghost use Rattle.std.specs.Prelude.{◌≡◌, ◌⊎◌, ◌+◌, ◌<◌, ◌≤◌, length, IfOk, IfErr};
ghost use Rattle.lab_defs_value.specs.Candidates.{seat_table};
ghost use Rattle.lab_defs_value.specs.Matching.{averages};
ghost use Rattle.lab_defs_value.specs.Smallness.{IsSmall};
ghost use Rattle.lab_form.specs.Forms.{sets_of, weight_count, form_model};
ghost use Rattle.lab_table.specs.Tables.{seat_actions};
ghost use Rattle.lab_regret.specs.Kept.{regrets_on, FitsRoom, AreRegretsOf};
ghost use Rattle.lab_session.specs.Answers.{IsReason};
ghost use Rattle.lab_session.specs.Kept.{AreTablesBy, profile_by};
ghost use Rattle.lab_session.specs.Solved.{IsSolved, solved_table};
ghost use Rattle.lab_session.specs.declared.how.How.TheVariants.{Solve};

use super::board::Board;
use crate::SessionFault;
use lab_form::{Form, NoMemory, Span};
use lab_regret::Regrets;
use lab_table::Table;
use std::alloc::Global;

// The most rounds of regret matching.
const MOST_ROUNDS: u32 = 4096;

/// The averages of both seats over some rounds on the whole game.
pub fn solved_tables(
    alloc: Global,
    board: &Board,
    rounds: u32,
) -> Result<(Table, Table), SessionFault>
    ensures tables { IfOk result (λ t. AreTablesBy board.now (Solve rounds) t.0 t.1) }
    ensures fault { IfErr result (λ f. IsReason (profile_by board.now (Solve rounds)) f) }
{
    if rounds == 0 || rounds > MOST_ROUNDS {
        return Err(SessionFault::BadRounds);
    }
    let Ok(tables) = averages(alloc, board, rounds) else {
        return Err(SessionFault::Memory);
    };
    Ok(tables)
}

// The same, for a number of rounds that may be played.
fn averages(alloc: Global, board: &Board, rounds: u32) -> Result<(Table, Table), NoMemory>
    requires some { 1 ≤ rounds }
    requires most { rounds ≤ 4096 }
    ensures one { IfOk result (λ t. t.0 ≡ solved_table board.now 1 rounds) }
    ensures two { IfOk result (λ t. t.1 ≡ solved_table board.now 2 rounds) }
{
    let regrets = board.solved(alloc, rounds)?;
    let one = board.average(alloc, 1, rounds, &regrets)?;
    let two = board.average(alloc, 2, rounds, &regrets)?;
    Ok((one, two))
}

/// The regrets of a form after some rounds, on a grid of both seats; a seat has at most so many weights.
pub fn solved(
    alloc: Global,
    form: &Form,
    grid: u32,
    weights: u32,
    rounds: u32,
) -> Result<Regrets, NoMemory>
    requires small { IsSmall grid grid (form_model form.now) }
    requires weights1 { weight_count form.now.sets1 ≤ weights }
    requires weights2 { weight_count form.now.sets2 ≤ weights }
    requires most { rounds ≤ 4096 }
    ensures { IfOk result (IsSolved (form_model form.now) grid grid rounds) }
{
    let sets = form.sets(1).len().max(form.sets(2).len()) as u32;
    let rows = form.rows().len() as u32;
    let Ok(regrets) = Regrets::start(alloc, sets, rows, weights) else {
        return Err(NoMemory);
    };
    let mut regrets = regrets;
    regrets.reset(form, [grid, grid]);
    play(&mut regrets, form, rounds);
    Ok(regrets)
}

// Plays some rounds.
fn play(regrets: &mut Regrets, form: &Form, rounds: u32)
    requires most { regrets.old.rounds + rounds ≤ 4096 }
    requires fits { FitsRoom regrets.old form.now }
    requires small { IsSmall regrets.old.grid1 regrets.old.grid2 (form_model form.now) }
    requires kept { AreRegretsOf (form_model form.now) regrets.old }
    ensures { IsSolved (form_model form.now) regrets.old.grid1 regrets.old.grid2 (regrets.old.rounds + rounds) regrets.new }
{
    for _ in 0..rounds {
        regrets.round(form);
    }
}

/// The average of a seat, 1 or 2, in place of the weights of a table of the form.
pub fn averaged(form: &Form, seat: u32, regrets: &Regrets, table: Table) -> Table
    requires seat { (seat ≡ 1) ⊎ (seat ≡ 2) }
    requires some { 0 < regrets.now.rounds }
    requires small { IsSmall regrets.now.grid1 regrets.now.grid2 (form_model form.now) }
    requires kept { AreRegretsOf (form_model form.now) regrets.now }
    requires table { table.actions ≡ seat_actions form.now seat }
    ensures actions { result.actions ≡ table.actions }
    ensures weights { result.weights ≡ seat_table seat (averages regrets.now.grid1 regrets.now.grid2 (form_model form.now) regrets.now.rounds) }
{
    let mut table = table;
    let all = Span {
        from: 0,
        to: form.sets(seat).len() as u32,
    };
    regrets.average(form, seat, table.window_mut(all));
    table
}
