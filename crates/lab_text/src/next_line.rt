//! One line more: its words tell its kind, and what it adds.
ghost use Rattle.std.specs.Prelude.{◌≡◌, ◌+◌, ◌<◌, ◌^◌, true, length, OnOk, IfOk};
ghost use Rattle.lab_defs_text.specs.Agreement.{Agrees};
ghost use Rattle.lab_defs_text.specs.Reading.{rest_at};
ghost use Rattle.lab_text.specs.Faults.{line_fault};
ghost use Rattle.lab_text.specs.Drafts.{draft_is, applied, pieces, kind_is, stepped, Counts, fits_behind};

use crate::draft::Draft;
use crate::head_lines::{done_line, grid_line, head_line, horizon_line, memory_line, token_line};
use crate::keywords::kind_in;
use crate::line_fault::LineFault;
use crate::line_kind::LineKind;
use crate::line_words::fill_words;
use crate::place_lines::{end_line, root_line, world_line};
use crate::row_lines::{one_line, outcome_line, row_line, two_line};
use std::alloc::Global;

/// Reads the line with a number, behind a line of the last kind, and answers its kind; `words` becomes the list of its words.
pub fn take_line<'a>(
    alloc: Global,
    words: &mut Vec<&'a [u8]>,
    draft: &mut Draft<'a>,
    last: LineKind,
    line: u32,
    bytes: &'a [u8],
) -> Result<LineKind, LineFault>
    requires short { length bytes.now + 1 < 2 ^ 32 }
    requires counts { Counts line last draft.old }
    ensures line { Agrees (λ k. (kind_is k, draft_is draft.new)) line_fault result (stepped line last draft.old bytes.now) }
    ensures counts { IfOk result (λ k. Counts (line + 1) k draft.new) }
{
    fill_words(words, bytes)?;
    let Some((first, rest)) = words.split_first() else {
        return Err(LineFault::BadWord { place: 1 });
    };
    let Some(kind) = kind_in(last, first) else {
        return Err(LineFault::BadWord { place: 1 });
    };
    rest_line(alloc, draft, last, line, kind, rest)?;
    Ok(kind)
}

// Reads the words behind the first one of a line of a kind.
fn rest_line<'a>(
    alloc: Global,
    draft: &mut Draft<'a>,
    last: LineKind,
    line: u32,
    kind: LineKind,
    rest: &[&'a [u8]],
) -> Result<(), LineFault>
    requires short { length rest.now + 1 < 2 ^ 32 }
    requires counts { Counts line last draft.old }
    requires fits { fits_behind last kind ≡ true }
    ensures line { Agrees (λ _. draft_is draft.new) line_fault result (applied line last draft.old (rest_at (kind_is kind) (pieces rest.now))) }
    ensures counts { OnOk result (Counts (line + 1) kind draft.new) }
{
    match kind {
        LineKind::Start => Err(LineFault::BadWord { place: 1 }),
        LineKind::Head => head_line(draft, last, line, rest),
        LineKind::Grid => grid_line(draft, last, line, rest),
        LineKind::Horizon => horizon_line(draft, last, line, rest),
        LineKind::Memory => memory_line(draft, last, line, rest),
        LineKind::Token => token_line(draft, last, line, rest),
        LineKind::World => world_line(alloc, draft, last, line, rest),
        LineKind::One => one_line(alloc, draft, last, line, rest),
        LineKind::Two => two_line(alloc, draft, last, line, rest),
        LineKind::Row => row_line(alloc, draft, last, line, rest),
        LineKind::To => outcome_line(alloc, draft, last, line, rest),
        LineKind::End => end_line(alloc, draft, last, line, rest),
        LineKind::Root => root_line(alloc, draft, last, line, rest),
        LineKind::Done => done_line(draft, last, line, rest),
    }
}
