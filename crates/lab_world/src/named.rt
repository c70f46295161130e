//! Parts whose names stand in others.
ghost use Rattle.std.specs.Prelude.{◌≡◌, [], map, string_bytes, IfOk};
ghost use Rattle.lab_lex.specs.Names.{name_bytes};
ghost use Rattle.lab_world.specs.Drafts.{
  part_outcome_by,
  part_outcome_of,
  part_row_by,
  part_row_of,
  part_place_by,
  part_place_of,
};

use super::parts::{PartOutcome, PartPlace, PartRow};
use lab_seq::{Few, Seq};
use std::alloc::{AllocError, Global};

/// The same places, whose names stand in these.
pub fn named_places<'a>(
    alloc: Global,
    places: &'a [PartPlace],
) -> Result<Vec<PartPlace<&'a str>>, AllocError>
    ensures { IfOk result (λ v. map (part_place_of []) v.items ≡ map (part_place_by string_bytes []) places.now) }
{
    let mut found = Vec::with_capacity(alloc, places.len())?;
    for place in places {
        found.push(named_place(alloc, place)?)?;
    }
    Ok(found)
}

fn named_place<'a>(alloc: Global, place: &'a PartPlace) -> Result<PartPlace<&'a str>, AllocError>
    ensures { IfOk result (λ p. part_place_of [] p ≡ part_place_by string_bytes [] place.now) }
{
    match place {
        PartPlace::World {
            line,
            one,
            two,
            rows,
        } => {
            let one = named_actions(alloc, one.as_slice())?;
            let two = named_actions(alloc, two.as_slice())?;
            let rows = named_rows(alloc, rows.as_slice())?;
            Ok(PartPlace::World {
                line: *line,
                one: Few::from_vec(one),
                two: Few::from_vec(two),
                rows: Seq::from_vec(rows),
            })
        }
        PartPlace::End { line, payoff } => Ok(PartPlace::End {
            line: *line,
            payoff: *payoff,
        }),
    }
}

fn named_actions<'a>(alloc: Global, names: &'a [String]) -> Result<Vec<&'a str>, AllocError>
    ensures { IfOk result (λ v. map name_bytes v.items ≡ map string_bytes names.now) }
{
    let mut found = Vec::with_capacity(alloc, names.len())?;
    for name in names {
        found.push(name.as_str())?;
    }
    Ok(found)
}

fn named_rows<'a>(alloc: Global, rows: &'a [PartRow]) -> Result<Vec<PartRow<&'a str>>, AllocError>
    ensures { IfOk result (λ v. map part_row_of v.items ≡ map (part_row_by string_bytes) rows.now) }
{
    let mut found = Vec::with_capacity(alloc, rows.len())?;
    for row in rows {
        found.push(named_row(alloc, row)?)?;
    }
    Ok(found)
}

fn named_row<'a>(alloc: Global, row: &'a PartRow) -> Result<PartRow<&'a str>, AllocError>
    ensures { IfOk result (λ r. part_row_of r ≡ part_row_by string_bytes row.now) }
{
    let outcomes = named_outcomes(alloc, row.outcomes.as_slice())?;
    Ok(PartRow {
        line: row.line,
        first: row.first.as_str(),
        second: row.second.as_str(),
        outcomes: Few::from_vec(outcomes),
    })
}

fn named_outcomes<'a>(
    alloc: Global,
    outcomes: &'a [PartOutcome],
) -> Result<Vec<PartOutcome<&'a str>>, AllocError>
    ensures { IfOk result (λ v. map part_outcome_of v.items ≡ map (part_outcome_by string_bytes) outcomes.now) }
{
    let mut found = Vec::with_capacity(alloc, outcomes.len())?;
    for outcome in outcomes {
        found.push(PartOutcome {
            line: outcome.line,
            weight: outcome.weight,
            next: outcome.next.as_str(),
            own1: outcome.own1.as_str(),
            own2: outcome.own2.as_str(),
            public: outcome.public.as_str(),
        })?;
    }
    Ok(found)
}
