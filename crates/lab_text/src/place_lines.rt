//! Lines that begin a world, declare an end, or name the root: the last world is whole there.
ghost use Rattle.std.specs.Prelude.{◌≡◌, ◌+◌, ◌<◌, ◌^◌, length, OnOk};
ghost use Rattle.lab_defs_text.specs.Agreement.{Agrees};
ghost use Rattle.lab_defs_text.specs.Reading.{rest_at, world_kind, end_kind, root_kind};
ghost use Rattle.lab_text.specs.Faults.{line_fault};
ghost use Rattle.lab_text.specs.Drafts.{draft_is, applied, pieces, whole_worlds};

use crate::draft::Draft;
use crate::draft_steps::{add_name, begin_world, close};
use crate::line_fault::LineFault;
use crate::line_kind::LineKind;
use crate::line_words::{name_in, only, payoff_in, two};
use lab_world::PartPlace;
use std::alloc::Global;

/// The line that begins a world.
pub fn world_line(
    alloc: Global,
    draft: &mut Draft<'_>,
    last: LineKind,
    line: u32,
    rest: &[&[u8]],
) -> Result<(), LineFault>
    requires named { length draft.old.names ≡ length draft.old.places.items + whole_worlds last }
    requires room { length draft.old.names + 1 < 2 ^ 32 }
    ensures line { Agrees (λ _. draft_is draft.new) line_fault result (applied line last draft.old (rest_at world_kind (pieces rest.now))) }
    ensures named { OnOk result (length draft.new.names ≡ length draft.new.places.items + 1) }
    ensures names { OnOk result (length draft.new.names ≡ length draft.old.names + 1) }
    ensures tokens { OnOk result (draft.new.tokens ≡ draft.old.tokens) }
{
    let word = only(rest)?;
    let name = name_in(word, 2)?;
    close(alloc, draft, last)?;
    add_name(&mut draft.names, name)?;
    begin_world(alloc, &mut draft.open_world, line);
    Ok(())
}

/// The line of an end.
pub fn end_line(
    alloc: Global,
    draft: &mut Draft<'_>,
    last: LineKind,
    line: u32,
    rest: &[&[u8]],
) -> Result<(), LineFault>
    requires named { length draft.old.names ≡ length draft.old.places.items + whole_worlds last }
    requires room { length draft.old.names + 1 < 2 ^ 32 }
    ensures line { Agrees (λ _. draft_is draft.new) line_fault result (applied line last draft.old (rest_at end_kind (pieces rest.now))) }
    ensures named { OnOk result (length draft.new.names ≡ length draft.new.places.items) }
    ensures names { OnOk result (length draft.new.names ≡ length draft.old.names + 1) }
    ensures tokens { OnOk result (draft.new.tokens ≡ draft.old.tokens) }
{
    let (name, payoff) = two(rest)?;
    let name = name_in(name, 2)?;
    let payoff = payoff_in(payoff, 3)?;
    close(alloc, draft, last)?;
    add_name(&mut draft.names, name)?;
    draft.places.push(PartPlace::End { line, payoff })?;
    Ok(())
}

/// The line of the root.
pub fn root_line<'a>(
    alloc: Global,
    draft: &mut Draft<'a>,
    last: LineKind,
    line: u32,
    rest: &[&'a [u8]],
) -> Result<(), LineFault>
    requires { length draft.old.names ≡ length draft.old.places.items + whole_worlds last }
    ensures line { Agrees (λ _. draft_is draft.new) line_fault result (applied line last draft.old (rest_at root_kind (pieces rest.now))) }
    ensures named { OnOk result (length draft.new.names ≡ length draft.new.places.items) }
    ensures names { OnOk result (draft.new.names ≡ draft.old.names) }
    ensures tokens { OnOk result (draft.new.tokens ≡ draft.old.tokens) }
{
    let word = only(rest)?;
    let name = name_in(word, 2)?;
    close(alloc, draft, last)?;
    draft.root = name;
    draft.root_line = line;
    Ok(())
}
