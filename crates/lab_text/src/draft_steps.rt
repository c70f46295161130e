//! Steps of a draft that lines of more than one kind take.
ghost use Rattle.std.specs.Prelude.{◌≡◌, ◌+◌, ◌<◌, ◌^◌, ◌++◌, ◌∷◌, [], length, OnOk, IfOk, IfErr};
ghost use Rattle.lab_defs_text.specs.Agreement.{Agrees};
ghost use Rattle.lab_defs_text.specs.Words.{stands_in};
ghost use Rattle.lab_defs_text.specs.Drafts.{empty, no_row, unless_twice, first_twice};
ghost use Rattle.lab_text.specs.Faults.{line_fault};
ghost use Rattle.lab_text.specs.Drafts.{draft_is, pieces, Closed, whole_row, open_row_of, open_world_of};

use crate::draft::{Draft, OpenRow, OpenWorld};
use crate::line_fault::LineFault;
use crate::line_kind::LineKind;
use lab_lex::{NameTable, NoMemory, TableFault, place_of_name};
use lab_seq::{Few, Seq};
use lab_world::{PartPlace, PartRow, Recall};
use std::alloc::{AllocError, Global};
use std::mem;

/// The draft before the first line.
pub fn new_draft<'a>(alloc: Global) -> Result<Draft<'a>, NoMemory>
    ensures empty { IfOk result (λ x. draft_is x ≡ empty) }
    ensures names { IfOk result (λ x. x.names ≡ []) }
    ensures tokens { IfOk result (λ x. x.tokens ≡ []) }
    ensures places { IfOk result (λ x. x.places.items ≡ []) }
{
    Ok(Draft {
        grid: 0,
        horizon: 0,
        recall: Recall::Acts,
        tokens: NameTable::new(alloc)?,
        names: NameTable::new(alloc)?,
        places: Vec::new(alloc),
        open_world: OpenWorld {
            line: 0,
            one: Few::new(alloc),
            two: Few::new(alloc),
            rows: Vec::new(alloc),
        },
        open_row: OpenRow {
            line: 0,
            first: "",
            second: "",
            outcomes: Vec::new(alloc),
        },
        root: "",
        root_line: 0,
    })
}

/// Takes out a row whose outcomes were read, and leaves it without them.
pub fn whole_row<'a>(alloc: Global, row: &mut OpenRow<'a>) -> Result<PartRow<&'a str>, AllocError>
    ensures { IfOk result (λ r. r ≡ whole_row row.old) }
{
    Ok(PartRow {
        line: row.line,
        first: row.first,
        second: row.second,
        outcomes: Few::take_from(alloc, &mut row.outcomes)?,
    })
}

/// Begins a row in the room of the one before; line 0 and no names stand for none.
pub fn begin_row<'a>(row: &mut OpenRow<'a>, line: u32, first: &'a str, second: &'a str)
    ensures { open_row_of row.new ≡ record { line = line; first = first.now; second = second.now; outcomes = [] } }
{
    row.line = line;
    row.first = first;
    row.second = second;
    row.outcomes.clear();
}

// Takes out a world whose rows were read, and leaves it without them.
fn whole_world<'a>(
    alloc: Global,
    world: &mut OpenWorld<'a>,
) -> Result<PartPlace<&'a str>, AllocError>
    ensures { IfOk result (λ p. p ≡ PartPlace.World world.old.line world.old.one world.old.two world.old.rows.items) }
{
    Ok(PartPlace::World {
        line: world.line,
        one: mem::replace(&mut world.one, Few::new(alloc)),
        two: mem::replace(&mut world.two, Few::new(alloc)),
        rows: Seq::take_from(alloc, &mut world.rows)?,
    })
}

/// Begins a world in the room of the one before; line 0 stands for none.
pub fn begin_world(alloc: Global, world: &mut OpenWorld<'_>, line: u32)
    ensures { open_world_of [] world.new ≡ record { name = []; line = line; one = []; two = []; rows = [] } }
{
    world.line = line;
    world.one = Few::new(alloc);
    world.two = Few::new(alloc);
    world.rows.clear();
}

/// Puts the last row into its world and the last world among the places, behind the line of an outcome.
pub fn close(alloc: Global, draft: &mut Draft<'_>, last: LineKind) -> Result<(), AllocError>
    ensures { OnOk result (Closed last draft.old draft.new) }
{
    if last == LineKind::To {
        let row = whole_row(alloc, &mut draft.open_row)?;
        draft.open_world.rows.push(row)?;
        let world = whole_world(alloc, &mut draft.open_world)?;
        draft.places.push(world)?;
        begin_row(&mut draft.open_row, 0, "", "");
        begin_world(alloc, &mut draft.open_world, 0);
    }
    Ok(())
}

/// Adds a name that must be new.
pub fn add_name(names: &mut NameTable, name: &str) -> Result<(), LineFault>
    requires { length names.old + 1 < 2 ^ 32 }
    ensures { Agrees (λ _. names.new) line_fault result (unless_twice (stands_in name.now names.old) (names.old ++ name.now ∷ [])) }
{
    match names.add(name) {
        Ok(_) => Ok(()),
        Err(TableFault::Twice { .. }) => Err(LineFault::Twice { place: 2 }),
        Err(TableFault::Memory) => Err(LineFault::Memory),
    }
}

/// The first place of a name that stands before it, where the first name has place 2; 0 where there is none. The names of a
/// short list are compared in pairs, those of a longer one put into a table.
pub fn twice_place(alloc: Global, names: &[&str]) -> Result<u32, NoMemory>
    requires { length names.now + 1 < 2 ^ 32 }
    ensures { IfOk result (λ place. place ≡ first_twice 2 [] (pieces names.now)) }
{
    if names.len() <= 16 {
        return Ok(twice_in_pairs(names));
    }
    twice_in_table(alloc, names)
}

fn twice_in_pairs(names: &[&str]) -> u32
    requires { length names.now + 1 < 2 ^ 32 }
    ensures { result ≡ first_twice 2 [] (pieces names.now) }
{
    for i in 0..names.len() {
        if place_of_name(&names[..i], names[i]).is_some() {
            return i as u32 + 2;
        }
    }
    0
}

fn twice_in_table(alloc: Global, names: &[&str]) -> Result<u32, NoMemory>
    requires { length names.now + 1 < 2 ^ 32 }
    ensures { IfOk result (λ place. place ≡ first_twice 2 [] (pieces names.now)) }
{
    let mut table = NameTable::new(alloc)?;
    for i in 0..names.len() {
        match table.add(names[i]) {
            Ok(_) => {}
            Err(TableFault::Twice { .. }) => return Ok(i as u32 + 2),
            Err(TableFault::Memory) => return Err(NoMemory),
        }
    }
    Ok(0)
}
