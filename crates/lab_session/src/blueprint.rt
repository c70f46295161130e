//! The first strategies of both seats.

ghost use Rattle.std.specs.Prelude.{◌≡◌, ◌<◌, ◌^◌, Ok, length, IfOk, IfErr};
ghost use Rattle.lab_session.specs.Answers.{IsReason};
ghost use Rattle.lab_session.specs.Kept.{AreSides, AreTablesBy, profile_by, profile_in};
ghost use Rattle.lab_session.specs.Sessions.{IsFew};
ghost use Rattle.lab_session.specs.declared.how.How.TheVariants.{Given, Uniform};

use super::board::Board;
use super::side::Sides;
use super::solve::solved_tables;
use crate::{How, SessionFault};
use lab_table::Table;
use std::alloc::Global;

/// The strategies of a way to a blueprint, with their tight bounds.
pub fn first_sides(alloc: Global, board: &Board, how: How<'_>) -> Result<Sides, SessionFault>
    requires { IsFew how }
    ensures sides { IfOk result (λ s. AreSides board.now s) }
    ensures found { IfOk result (λ s. profile_by board.now how.entry ≡ Ok (profile_in s)) }
    ensures fault { IfErr result (λ f. IsReason (profile_by board.now how.entry) f) }
{
    let (one, two) = tables_by(alloc, board, how)?;
    let Ok(one) = board.side(alloc, 1, one) else {
        return Err(SessionFault::Memory);
    };
    let Ok(two) = board.side(alloc, 2, two) else {
        return Err(SessionFault::Memory);
    };
    Ok(Sides { one, two })
}

// The tables of both seats.
fn tables_by(alloc: Global, board: &Board, how: How<'_>) -> Result<(Table, Table), SessionFault>
    requires { IsFew how }
    ensures tables { IfOk result (λ t. AreTablesBy board.now how.entry t.0 t.1) }
    ensures fault { IfErr result (λ f. IsReason (profile_by board.now how.entry) f) }
{
    match how {
        How::Uniform => even_tables(alloc, board),
        How::Given { weights } => given_tables(alloc, board, weights),
        How::Solve { rounds } => solved_tables(alloc, board, rounds),
    }
}

// The tables that split evenly.
fn even_tables(alloc: Global, board: &Board) -> Result<(Table, Table), SessionFault>
    ensures tables { IfOk result (λ t. AreTablesBy board.now Uniform t.0 t.1) }
    ensures fault { IfErr result (λ f. f ≡ SessionFault.Memory) }
{
    let Ok(one) = board.even(alloc, 1) else {
        return Err(SessionFault::Memory);
    };
    let Ok(two) = board.even(alloc, 2) else {
        return Err(SessionFault::Memory);
    };
    Ok((one, two))
}

// The tables with these weights, seat 1's first.
fn given_tables(
    alloc: Global,
    board: &Board,
    weights: &[u32],
) -> Result<(Table, Table), SessionFault>
    requires { length weights.now < 2 ^ 32 }
    ensures tables { IfOk result (λ t. AreTablesBy board.now (Given weights.entry) t.0 t.1) }
    ensures fault { IfErr result (λ f. IsReason (profile_by board.now (Given weights.entry)) f) }
{
    let first = board.weight_count(1);
    let needed = first + board.weight_count(2);
    let given = weights.len() as u32;
    if needed != given {
        return Err(SessionFault::WrongCount { needed, given });
    }
    let one = board.given(alloc, 1, &weights[..first as usize])?;
    let two = board.given(alloc, 2, &weights[first as usize..])?;
    let (Some(one), Some(two)) = (one, two) else {
        return Err(SessionFault::Memory);
    };
    Ok((one, two))
}
