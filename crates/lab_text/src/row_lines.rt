//! Lines inside a world: its actions, its rows and their outcomes.
ghost use Rattle.std.specs.Prelude.{◌≡◌, ◌+◌, ◌<◌, ◌^◌, length};
ghost use Rattle.lab_defs_text.specs.Agreement.{Agrees};
ghost use Rattle.lab_defs_text.specs.Reading.{rest_at, one_kind, two_kind, row_kind, to_kind};
ghost use Rattle.lab_text.specs.Faults.{line_fault};
ghost use Rattle.lab_text.specs.Drafts.{draft_is, applied, pieces, actions_at, apart_at, KeepsNames};

use crate::draft::Draft;
use crate::draft_steps::{begin_row, twice_place, whole_row};
use crate::line_fault::LineFault;
use crate::line_kind::LineKind;
use crate::line_words::{five, name_in, names_in, number_in, two};
use lab_seq::Few;
use lab_world::PartOutcome;
use std::alloc::Global;

/// The line of seat 1's actions.
pub fn one_line<'a>(
    alloc: Global,
    draft: &mut Draft<'a>,
    last: LineKind,
    line: u32,
    rest: &[&'a [u8]],
) -> Result<(), LineFault>
    requires { length rest.now + 1 < 2 ^ 32 }
    ensures line { Agrees (λ _. draft_is draft.new) line_fault result (applied line last draft.old (rest_at one_kind (pieces rest.now))) }
    ensures names { KeepsNames draft.old draft.new }
{
    draft.open_world.one = actions_in(alloc, rest)?;
    Ok(())
}

/// The line of seat 2's actions.
pub fn two_line<'a>(
    alloc: Global,
    draft: &mut Draft<'a>,
    last: LineKind,
    line: u32,
    rest: &[&'a [u8]],
) -> Result<(), LineFault>
    requires { length rest.now + 1 < 2 ^ 32 }
    ensures line { Agrees (λ _. draft_is draft.new) line_fault result (applied line last draft.old (rest_at two_kind (pieces rest.now))) }
    ensures names { KeepsNames draft.old draft.new }
{
    draft.open_world.two = actions_in(alloc, rest)?;
    Ok(())
}

// The names of actions behind the first word, each of which is new.
fn actions_in<'a>(alloc: Global, rest: &[&'a [u8]]) -> Result<Few<&'a str>, LineFault>
    requires { length rest.now + 1 < 2 ^ 32 }
    ensures { Agrees pieces line_fault result (actions_at (pieces rest.now)) }
{
    match rest {
        [] => Err(LineFault::BadWord { place: 2 }),
        [word] => Ok(Few::one(name_in(word, 2)?)),
        [_, _, ..] => Ok(Few::from_vec(apart_in(alloc, rest)?)),
    }
}

// The names of actions, each of which is new.
fn apart_in<'a>(alloc: Global, rest: &[&'a [u8]]) -> Result<Vec<&'a str>, LineFault>
    requires { length rest.now + 1 < 2 ^ 32 }
    ensures { Agrees (λ v. pieces v.items) line_fault result (apart_at (pieces rest.now)) }
{
    let names = names_in(alloc, rest)?;
    let place = twice_place(alloc, &names)?;
    if place != 0 {
        return Err(LineFault::Twice { place });
    }
    Ok(names)
}

/// The line that begins a row.
pub fn row_line<'a>(
    alloc: Global,
    draft: &mut Draft<'a>,
    last: LineKind,
    line: u32,
    rest: &[&'a [u8]],
) -> Result<(), LineFault>
    ensures line { Agrees (λ _. draft_is draft.new) line_fault result (applied line last draft.old (rest_at row_kind (pieces rest.now))) }
    ensures names { KeepsNames draft.old draft.new }
{
    let (first, second) = two(rest)?;
    let first = name_in(first, 2)?;
    let second = name_in(second, 3)?;
    if last == LineKind::To {
        let whole = whole_row(alloc, &mut draft.open_row)?;
        draft.open_world.rows.push(whole)?;
    }
    begin_row(&mut draft.open_row, line, first, second);
    Ok(())
}

/// The line of an outcome.
pub fn outcome_line<'a>(
    alloc: Global,
    draft: &mut Draft<'a>,
    last: LineKind,
    line: u32,
    rest: &[&'a [u8]],
) -> Result<(), LineFault>
    ensures line { Agrees (λ _. draft_is draft.new) line_fault result (applied line last draft.old (rest_at to_kind (pieces rest.now))) }
    ensures names { KeepsNames draft.old draft.new }
{
    let (weight, next, own1, own2, public) = five(rest)?;
    let weight = number_in(weight, 2, 1, 1_048_576)?;
    let outcome = PartOutcome {
        line,
        weight,
        next: name_in(next, 3)?,
        own1: name_in(own1, 4)?,
        own2: name_in(own2, 5)?,
        public: name_in(public, 6)?,
    };
    draft.open_row.outcomes.push(outcome)?;
    Ok(())
}
