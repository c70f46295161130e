//! Rows in the order of joint actions.
ghost use Rattle.std.specs.Prelude.{
  ◌≡◌,
  ◌≢◌,
  ◌*◌,
  ◌/◌,
  ◌%◌,
  ◌<◌,
  ◌^◌,
  ℕ,
  [],
  map,
  true,
  IfOk,
  IfSome,
  slice_get,
  slice_set,
};
ghost use Rattle.std.specs.Option.{option_map};
ghost use Rattle.std.specs.List.{list_all, range_with_len};
ghost use Rattle.lab_defs_text.specs.Agreement.{Agrees};
ghost use Rattle.lab_defs_text.specs.Steps.{each};
ghost use Rattle.lab_defs_text.specs.Assembly.{row_numbered, row_at, ordered};
ghost use Rattle.lab_world.specs.Drafts.{assemble_fault};
ghost use Rattle.lab_world.specs.Models.{row_model};
ghost use Rattle.lab_world.specs.Stages.{
  placed_rows_of,
  placed_place_of,
  placed_fits,
  rows_fit,
  ordered_place_of,
  total_fits,
  totals_fit,
};

use super::parts::AssembleFault;
use super::place::Row;
use super::stages::{OrderedPlace, PlacedPlace, PlacedRows};
use lab_seq::{Few, Seq};
use std::alloc::Global;
use std::mem;

/// A place with its rows in order, or the first joint action that has no row.
pub fn ordered_place<'a>(
    alloc: Global,
    place: PlacedPlace<'a>,
) -> Result<OrderedPlace<'a>, AssembleFault>
    requires { placed_fits place ≡ true }
    ensures place { Agrees ordered_place_of assemble_fault result (ordered (placed_place_of place.entry)) }
    ensures totals { IfOk result (λ p. totals_fit p ≡ true) }
{
    match place {
        PlacedPlace::World {
            line,
            one,
            two,
            rows,
        } => {
            let rows = rows_in_order(alloc, line, one.len() as u32, two.len() as u32, rows)?;
            Ok(OrderedPlace::World {
                one,
                two,
                rows: Seq::from_vec(rows),
            })
        }
        PlacedPlace::End(payoff) => Ok(OrderedPlace::End(payoff)),
    }
}

// The rows of a world in line `line`, where the seats have `one` and `two` actions. Rows that come in order stay as they are.
fn rows_in_order(
    alloc: Global,
    line: u32,
    one: u32,
    two: u32,
    placed: PlacedRows,
) -> Result<Vec<Row>, AssembleFault>
    requires { rows_fit placed ≡ true }
    ensures rows { Agrees (λ v. map row_model v.items) assemble_fault result (each (row_at line two (placed_rows_of placed)) (range_with_len 0 (one * two))) }
    ensures totals { IfOk result (λ v. list_all total_fits v.items ≡ true) }
{
    if placed.rows.len() as u64 == one as u64 * two as u64 && placed.numbers.are_in_order() {
        return Ok(placed.rows);
    }
    rows_by_number(alloc, line, one, two, placed)
}

// The rows of a world by the numbers of their joint actions. It stops at the first that is missing, so it takes no more than
// one step for each row and one more, however many joint actions there are.
fn rows_by_number(
    alloc: Global,
    line: u32,
    firsts: u32,
    seconds: u32,
    placed: PlacedRows,
) -> Result<Vec<Row>, AssembleFault>
    requires { list_all total_fits placed.rows.items ≡ true }
    ensures rows { Agrees (λ v. map row_model v.items) assemble_fault result (each (row_at line seconds (placed_rows_of placed)) (range_with_len 0 (firsts * seconds))) }
    ensures totals { IfOk result (λ v. list_all total_fits v.items ≡ true) }
{
    let mut left = placed;
    let mut found = Vec::with_capacity(alloc, left.rows.len())?;
    for number in 0..firsts as u64 * seconds as u64 {
        let Some(row) = take_row(alloc, &mut left, number) else {
            return Err(missing_row(line, number, seconds));
        };
        found.push(row)?;
    }
    Ok(found)
}

// The fault of a joint action that has no row, by its number.
fn missing_row(line: u32, number: u64, seconds: u32) -> AssembleFault
    requires some { 0 < seconds }
    requires few { number < 2 ^ 32 * seconds }
    ensures { result ≡ AssembleFault.MissingRow line (number / seconds) (number % seconds) }
{
    AssembleFault::MissingRow {
        line,
        first: (number / seconds as u64) as u32,
        second: (number % seconds as u64) as u32,
    }
}

// Takes the row of a joint action, and leaves an empty one in its place.
fn take_row(alloc: Global, left: &mut PlacedRows, number: u64) -> Option<Row>
    requires { list_all total_fits left.old.rows.items ≡ true }
    ensures taken { option_map row_model result ≡ row_numbered number (placed_rows_of left.old) }
    ensures others { (k : ℕ) → k ≢ number → row_numbered k (placed_rows_of left.new) ≡ row_numbered k (placed_rows_of left.old) }
    ensures total { IfSome result (λ r. total_fits r ≡ true) }
    ensures totals { list_all total_fits left.new.rows.items ≡ true }
{
    let at = left.numbers.find(number)?;
    take_at(alloc, &mut left.rows, at)
}

// Takes the row at a place, and leaves an empty one there.
fn take_at(alloc: Global, rows: &mut Vec<Row>, at: usize) -> Option<Row>
    ensures taken { result ≡ slice_get rows.old.items at }
    ensures others { rows.new.items ≡ slice_set rows.old.items at (record { total = 0; outcomes = [] }) }
{
    if at >= rows.len() {
        return None;
    }
    let empty = Row {
        total: 0,
        outcomes: Few::new(alloc),
    };
    Some(mem::replace(&mut rows[at], empty))
}
