//! Lines before the places, and the last line: each function reads the words of one kind of line and adds what they say.
ghost use Rattle.std.specs.Prelude.{◌≡◌, ◌+◌, ◌<◌, ◌^◌, length, OnOk};
ghost use Rattle.lab_defs_text.specs.Agreement.{Agrees};
ghost use Rattle.lab_defs_text.specs.Reading.{rest_at, recall_at, head_kind, grid_kind, horizon_kind, memory_kind, token_kind, done_kind};
ghost use Rattle.lab_text.specs.Faults.{line_fault};
ghost use Rattle.lab_text.specs.Drafts.{draft_is, applied, pieces, KeepsNames};
ghost use Rattle.lab_world.specs.Models.{recall_model};

use crate::draft::Draft;
use crate::draft_steps::add_name;
use crate::line_fault::LineFault;
use crate::line_kind::LineKind;
use crate::line_words::{name_in, nothing, number_in, only};
use lab_world::Recall;

/// The line `fosg 1`.
pub fn head_line(
    draft: &mut Draft<'_>,
    last: LineKind,
    line: u32,
    rest: &[&[u8]],
) -> Result<(), LineFault>
    ensures line { Agrees (λ _. draft_is draft.new) line_fault result (applied line last draft.old (rest_at head_kind (pieces rest.now))) }
    ensures names { KeepsNames draft.old draft.new }
{
    let word = only(rest)?;
    if word != b"1".as_slice() {
        return Err(LineFault::BadWord { place: 2 });
    }
    Ok(())
}

/// The line of the grid.
pub fn grid_line(
    draft: &mut Draft<'_>,
    last: LineKind,
    line: u32,
    rest: &[&[u8]],
) -> Result<(), LineFault>
    ensures line { Agrees (λ _. draft_is draft.new) line_fault result (applied line last draft.old (rest_at grid_kind (pieces rest.now))) }
    ensures names { KeepsNames draft.old draft.new }
{
    let word = only(rest)?;
    draft.grid = number_in(word, 2, 1, 4096)?;
    Ok(())
}

/// The line of the horizon.
pub fn horizon_line(
    draft: &mut Draft<'_>,
    last: LineKind,
    line: u32,
    rest: &[&[u8]],
) -> Result<(), LineFault>
    ensures line { Agrees (λ _. draft_is draft.new) line_fault result (applied line last draft.old (rest_at horizon_kind (pieces rest.now))) }
    ensures names { KeepsNames draft.old draft.new }
{
    let word = only(rest)?;
    draft.horizon = number_in(word, 2, 1, 32)?;
    Ok(())
}

/// The line of the kind of memory.
pub fn memory_line(
    draft: &mut Draft<'_>,
    last: LineKind,
    line: u32,
    rest: &[&[u8]],
) -> Result<(), LineFault>
    ensures line { Agrees (λ _. draft_is draft.new) line_fault result (applied line last draft.old (rest_at memory_kind (pieces rest.now))) }
    ensures names { KeepsNames draft.old draft.new }
{
    let word = only(rest)?;
    draft.recall = recall_in(word, 2)?;
    Ok(())
}

// The kind of memory at a place.
fn recall_in(word: &[u8], place: u32) -> Result<Recall, LineFault>
    ensures { Agrees recall_model line_fault result (recall_at place word.now) }
{
    if word == b"acts".as_slice() {
        return Ok(Recall::Acts);
    }
    if word == b"seen".as_slice() {
        return Ok(Recall::Seen);
    }
    Err(LineFault::BadWord { place })
}

/// The line of a token.
pub fn token_line(
    draft: &mut Draft<'_>,
    last: LineKind,
    line: u32,
    rest: &[&[u8]],
) -> Result<(), LineFault>
    requires { length draft.old.tokens + 1 < 2 ^ 32 }
    ensures line { Agrees (λ _. draft_is draft.new) line_fault result (applied line last draft.old (rest_at token_kind (pieces rest.now))) }
    ensures names { draft.new.names ≡ draft.old.names }
    ensures places { draft.new.places.items ≡ draft.old.places.items }
    ensures tokens { OnOk result (length draft.new.tokens ≡ length draft.old.tokens + 1) }
{
    let word = only(rest)?;
    let name = name_in(word, 2)?;
    add_name(&mut draft.tokens, name)
}

/// The line `done`.
pub fn done_line(
    draft: &mut Draft<'_>,
    last: LineKind,
    line: u32,
    rest: &[&[u8]],
) -> Result<(), LineFault>
    ensures line { Agrees (λ _. draft_is draft.new) line_fault result (applied line last draft.old (rest_at done_kind (pieces rest.now))) }
    ensures names { KeepsNames draft.old draft.new }
{
    nothing(rest)
}
