//! Names of places and tokens to numbers.
ghost use Rattle.std.specs.Prelude.{[], map};
ghost use Rattle.lab_defs_text.specs.Agreement.{Agrees};
ghost use Rattle.lab_defs_text.specs.Steps.{each};
ghost use Rattle.lab_defs_text.specs.Assembly.{
  known,
  known_outcome as known_outcome_of_parts,
  known_row as known_row_of_parts,
  known_place as known_place_of_parts,
};
ghost use Rattle.lab_world.specs.Drafts.{part_outcome_of, part_row_of, part_place_of, assemble_fault};
ghost use Rattle.lab_world.specs.Models.{outcome_model};
ghost use Rattle.lab_world.specs.Stages.{outcomes_model, known_row_of, known_place_of};

use super::parts::{AssembleFault, PartOutcome, PartPlace, PartRow};
use super::place::{Outcome, TokenId, WorldId};
use super::stages::{KnownPlace, KnownRow};
use lab_lex::NameTable;
use lab_seq::Few;
use std::alloc::Global;

/// A place with its outcomes by numbers, or the first name that is not declared.
pub fn known_place<'a>(
    alloc: Global,
    names: &NameTable,
    tokens: &NameTable,
    place: PartPlace<&'a str>,
) -> Result<KnownPlace<'a>, AssembleFault>
    ensures { Agrees known_place_of assemble_fault result (known_place_of_parts names.now tokens.now (part_place_of [] place.entry)) }
{
    match place {
        PartPlace::World {
            line,
            one,
            two,
            rows,
        } => {
            let rows = known_rows(alloc, names, tokens, rows.as_slice())?;
            Ok(KnownPlace::World {
                line,
                one,
                two,
                rows,
            })
        }
        PartPlace::End { payoff, .. } => Ok(KnownPlace::End(payoff)),
    }
}

// The rows with their outcomes by numbers.
fn known_rows<'a>(
    alloc: Global,
    names: &NameTable,
    tokens: &NameTable,
    rows: &[PartRow<&'a str>],
) -> Result<Vec<KnownRow<'a>>, AssembleFault>
    ensures { Agrees (λ v. map known_row_of v.items) assemble_fault result (each (known_row_of_parts names.now tokens.now) (map part_row_of rows.now)) }
{
    let mut found = Vec::with_capacity(alloc, rows.len())?;
    for row in rows {
        found.push(known_row(alloc, names, tokens, row)?)?;
    }
    Ok(found)
}

// A row with its outcomes by numbers.
fn known_row<'a>(
    alloc: Global,
    names: &NameTable,
    tokens: &NameTable,
    row: &PartRow<&'a str>,
) -> Result<KnownRow<'a>, AssembleFault>
    ensures { Agrees known_row_of assemble_fault result (known_row_of_parts names.now tokens.now (part_row_of row.now)) }
{
    let outcomes = known_outcomes(alloc, names, tokens, row.outcomes.as_slice())?;
    Ok(KnownRow {
        line: row.line,
        first: row.first,
        second: row.second,
        outcomes,
    })
}

// The outcomes by numbers; one by itself takes no memory.
fn known_outcomes(
    alloc: Global,
    names: &NameTable,
    tokens: &NameTable,
    outcomes: &[PartOutcome<&str>],
) -> Result<Few<Outcome>, AssembleFault>
    ensures { Agrees outcomes_model assemble_fault result (each (known_outcome_of_parts names.now tokens.now) (map part_outcome_of outcomes.now)) }
{
    if let [outcome] = outcomes {
        return Ok(Few::one(known_outcome(names, tokens, outcome)?));
    }
    Ok(Few::from_vec(outcome_list(alloc, names, tokens, outcomes)?))
}

// The outcomes by numbers, in a vector.
fn outcome_list(
    alloc: Global,
    names: &NameTable,
    tokens: &NameTable,
    outcomes: &[PartOutcome<&str>],
) -> Result<Vec<Outcome>, AssembleFault>
    ensures { Agrees (λ v. outcomes_model v.items) assemble_fault result (each (known_outcome_of_parts names.now tokens.now) (map part_outcome_of outcomes.now)) }
{
    let mut found = Vec::with_capacity(alloc, outcomes.len())?;
    for outcome in outcomes {
        found.push(known_outcome(names, tokens, outcome)?)?;
    }
    Ok(found)
}

// An outcome by numbers. A token that both seats are told is looked up once.
fn known_outcome(
    names: &NameTable,
    tokens: &NameTable,
    outcome: &PartOutcome<&str>,
) -> Result<Outcome, AssembleFault>
    ensures { Agrees outcome_model assemble_fault result (known_outcome_of_parts names.now tokens.now (part_outcome_of outcome.now)) }
{
    let line = outcome.line;
    let next = number_in(names, line, 3, outcome.next)?;
    let own1 = number_in(tokens, line, 4, outcome.own1)?;
    let own2 = if outcome.own2 == outcome.own1 {
        own1
    } else {
        number_in(tokens, line, 5, outcome.own2)?
    };
    let public = number_in(tokens, line, 6, outcome.public)?;
    Ok(Outcome {
        weight: outcome.weight,
        next: WorldId(next),
        own1: TokenId(own1),
        own2: TokenId(own2),
        public: TokenId(public),
    })
}

/// The number of a name that stands at a place of a line.
pub fn number_in(table: &NameTable, line: u32, place: u32, name: &str) -> Result<u32, AssembleFault>
    ensures { Agrees (λ n. n) assemble_fault result (known table.now line place name.now) }
{
    match table.find(name) {
        Some(number) => Ok(number),
        None => Err(AssembleFault::UnknownName { line, place }),
    }
}
