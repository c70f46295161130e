//! Rows to their joint actions.
ghost use Rattle.std.specs.Prelude.{◌≡◌, ◌+◌, ◌<◌, ◌^◌, [], length, map, true, IfOk, OnOk};
ghost use Rattle.std.specs.List.{list_all};
ghost use Rattle.lab_defs_text.specs.Words.{apart_after};
ghost use Rattle.lab_defs_text.specs.Agreement.{Agrees};
ghost use Rattle.lab_defs_text.specs.Assembly.{action_of, place_rows as rows_placed, placed};
ghost use Rattle.lab_defs_game.specs.Chance.{row_total};
ghost use Rattle.lab_lex.specs.Names.{name_bytes};
ghost use Rattle.lab_world.specs.Drafts.{assemble_fault};
ghost use Rattle.lab_world.specs.Models.{row_model};
ghost use Rattle.lab_world.specs.Stages.{
  outcomes_model,
  known_fits,
  weights_fit,
  known_row_of,
  known_place_of,
  placed_rows_of,
  placed_place_of,
  total_fits,
  rows_fit,
  placed_fits,
  with_row,
};

use super::name_list::NameList;
use super::parts::AssembleFault;
use super::place::{Outcome, Row};
use super::row_numbers::RowNumbers;
use super::stages::{KnownPlace, KnownRow, PlacedPlace, PlacedRows};
use lab_lex::{NameTable, TableFault};
use lab_seq::Few;
use std::alloc::{AllocError, Global};

/// A place with its rows by their joint actions, or the first that is one too many.
pub fn placed_place<'a>(
    alloc: Global,
    place: KnownPlace<'a>,
) -> Result<PlacedPlace<'a>, AssembleFault>
    requires { known_fits (known_place_of place) ≡ true }
    ensures place { Agrees placed_place_of assemble_fault result (placed (known_place_of place.entry)) }
    ensures fit { IfOk result (λ p. placed_fits p ≡ true) }
{
    match place {
        KnownPlace::World {
            line,
            one,
            two,
            rows,
        } => {
            let rows = rows_in_world(alloc, one.as_slice(), two.as_slice(), rows)?;
            Ok(PlacedPlace::World {
                line,
                one,
                two,
                rows,
            })
        }
        KnownPlace::End(payoff) => Ok(PlacedPlace::End(payoff)),
    }
}

// The rows of a world by its actions.
fn rows_in_world(
    alloc: Global,
    one: &[&str],
    two: &[&str],
    rows: Vec<KnownRow<'_>>,
) -> Result<PlacedRows, AssembleFault>
    requires one { apart_after [] (map name_bytes one.now) ≡ true }
    requires two { apart_after [] (map name_bytes two.now) ≡ true }
    requires few_one { length one.now < 2 ^ 32 }
    requires few_two { length two.now < 2 ^ 32 }
    requires few_rows { length rows.items < 2 ^ 32 }
    requires weights { list_all weights_fit (map known_row_of rows.items) ≡ true }
    ensures rows { Agrees placed_rows_of assemble_fault result (rows_placed (map name_bytes one.now) (map name_bytes two.now) [] (map known_row_of rows.entry.items)) }
    ensures fit { IfOk result (λ p. rows_fit p ≡ true) }
{
    let one = NameList::new(alloc, one)?;
    let two = NameList::new(alloc, two)?;
    place_rows(alloc, &one, &two, rows)
}

/// A table of names, none of which stands twice.
pub fn table_of(alloc: Global, names: &[&str]) -> Result<NameTable, AllocError>
    requires apart { apart_after [] (map name_bytes names.now) ≡ true }
    requires few { length names.now < 2 ^ 32 }
    ensures { IfOk result (λ t. t ≡ map name_bytes names.now) }
{
    let Ok(mut table) = NameTable::new(alloc) else {
        return Err(AllocError);
    };
    for i in 0..names.len() {
        let name = names[i];
        match table.add(name) {
            Ok(_) => {}
            Err(TableFault::Twice { .. }) => unreachable!(),
            Err(TableFault::Memory) => return Err(AllocError),
        }
    }
    Ok(table)
}

// The rows by their joint actions.
fn place_rows(
    alloc: Global,
    one: &NameList<'_>,
    two: &NameList<'_>,
    rows: Vec<KnownRow<'_>>,
) -> Result<PlacedRows, AssembleFault>
    requires few { length rows.items < 2 ^ 32 }
    requires weights { list_all weights_fit (map known_row_of rows.items) ≡ true }
    ensures rows { Agrees placed_rows_of assemble_fault result (rows_placed one.now two.now [] (map known_row_of rows.entry.items)) }
    ensures fit { IfOk result (λ p. rows_fit p ≡ true) }
{
    let room = Vec::with_capacity(alloc, rows.len())?;
    let mut found = PlacedRows {
        numbers: RowNumbers::new(alloc),
        rows: room,
    };
    for row in rows {
        place_row(&mut found, one, two, row)?;
    }
    Ok(found)
}

// Adds a row, if its joint action has none.
fn place_row(
    found: &mut PlacedRows,
    one: &NameList<'_>,
    two: &NameList<'_>,
    row: KnownRow<'_>,
) -> Result<(), AssembleFault>
    requires fit { rows_fit found.old ≡ true }
    requires few { length found.old.rows.items + 1 < 2 ^ 32 }
    requires weights { weights_fit (known_row_of row) ≡ true }
    ensures row { Agrees (λ _. placed_rows_of found.new) assemble_fault result (with_row one.now two.now (placed_rows_of found.old) (known_row_of row.entry)) }
    ensures fit { OnOk result (rows_fit found.new ≡ true) }
    ensures count { OnOk result (length found.new.rows.items ≡ length found.old.rows.items + 1) }
{
    let number = joint_action(one, two, &row)?;
    if found.numbers.contains(number) {
        return Err(AssembleFault::ExtraRow { line: row.line });
    }
    found.numbers.add(number)?;
    found.rows.push(whole_row(row.outcomes))?;
    Ok(())
}

// The row with these outcomes and the total of their weights.
fn whole_row(outcomes: Few<Outcome>) -> Row
    requires { row_total (outcomes_model outcomes) < 2 ^ 64 }
    ensures outcomes { row_model result ≡ outcomes_model outcomes }
    ensures total { total_fits result ≡ true }
{
    let total = total_of(outcomes.as_slice());
    Row { total, outcomes }
}

// The weights together.
fn total_of(outcomes: &[Outcome]) -> u64
    requires { row_total (outcomes_model outcomes.now) < 2 ^ 64 }
    ensures { result ≡ row_total (outcomes_model outcomes.now) }
{
    let mut total = 0;
    for outcome in outcomes {
        total += outcome.weight as u64;
    }
    total
}

// The number of a row's joint action.
fn joint_action(
    one: &NameList<'_>,
    two: &NameList<'_>,
    row: &KnownRow<'_>,
) -> Result<u64, AssembleFault>
    ensures { Agrees (λ n. n) assemble_fault result (action_of one.now two.now (known_row_of row.now)) }
{
    let (Some(first), Some(second)) = (one.find(row.first), two.find(row.second)) else {
        return Err(AssembleFault::ExtraRow { line: row.line });
    };
    Ok(first as u64 * two.count() as u64 + second as u64)
}
