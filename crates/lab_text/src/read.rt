//! A game read from its text.
ghost use Rattle.std.specs.Prelude.{◌≡◌, ◌≢◌, ◌<◌, ◌^◌, length, IfOk, IfErr, OnOk, Ok};
ghost use Rattle.std.specs.Option.{option_map};
ghost use Rattle.lab_defs_text.specs.Agreement.{Agrees};
ghost use Rattle.lab_defs_text.specs.Drafts.{parts_of, empty};
ghost use Rattle.lab_defs_text.specs.Faults.{in_line};
ghost use Rattle.lab_defs_text.specs.Games.{GameModel};
ghost use Rattle.lab_defs_text.specs.Readings.{game_of};
ghost use Rattle.lab_defs_text.specs.Texts.{IsText};
ghost use Rattle.lab_world.specs.Games.{game_model};
ghost use Rattle.lab_text.specs.Faults.{text_fault, line_fault};
ghost use Rattle.lab_text.specs.Drafts.{draft_is, all_parts, Counts};

use crate::draft::Draft;
use crate::draft_steps::new_draft;
use crate::fault::TextFault;
use crate::line_fault::LineFault;
use crate::line_kind::LineKind;
use crate::next_line::take_line;
use crate::text_lines::first_line;
use lab_seq::Seq;
use lab_world::{AssembleFault, Game, Parts};
use std::alloc::Global;

/// The game whose text the bytes are, or the first fault: that of the first line that may not stand where it does, and where there is none, that of the whole.
/// Want of memory is `TextFault::Memory`, wherever it was met.
pub fn read_game(alloc: Global, bytes: &[u8]) -> Result<Game, TextFault>
    requires { length bytes.now < 2 ^ 32 }
    ensures exact { Agrees game_model text_fault result (game_of bytes.now) }
    ensures text { IfOk result (λ game. IsText bytes.now (game_model game)) }
    ensures only { (g : GameModel) → IsText bytes.now g → Agrees game_model text_fault result (Ok g) }
    ensures memory { IfErr result (λ fault. fault ≢ TextFault.Assemble AssembleFault.Memory) }
{
    let draft = parts_in(alloc, bytes)?;
    Ok(Game::assemble_named(alloc, all_parts(draft))?)
}

// The parts that the lines of a text declare, or the first fault.
fn parts_in(alloc: Global, bytes: &[u8]) -> Result<Draft<'_>, TextFault>
    requires { length bytes.now < 2 ^ 32 }
    ensures parts { Agrees draft_is text_fault result (parts_of bytes.now) }
    ensures named { IfOk result (λ x. length x.names ≡ length x.places.items) }
    ensures memory { IfErr result (λ fault. fault ≢ TextFault.Assemble AssembleFault.Memory) }
{
    let mut draft = new_draft(alloc)?;
    read_lines(alloc, &mut draft, bytes)?;
    Ok(draft)
}

// Adds to an empty draft what the lines of a text declare.
fn read_lines<'a>(alloc: Global, draft: &mut Draft<'a>, bytes: &'a [u8]) -> Result<(), TextFault>
    requires short { length bytes.now < 2 ^ 32 }
    requires empty { draft_is draft.old ≡ empty }
    requires counts { Counts 1 LineKind.Start draft.old }
    ensures parts { Agrees (λ _. draft_is draft.new) text_fault result (parts_of bytes.now) }
    ensures named { OnOk result (length draft.new.names ≡ length draft.new.places.items) }
    ensures memory { IfErr result (λ fault. fault ≢ TextFault.Assemble AssembleFault.Memory) }
{
    let mut last = LineKind::Start;
    let mut line = 1;
    let mut rest = bytes;
    let mut words = Vec::new(alloc);
    while let Some((bytes, after)) = first_line(rest) {
        last = match take_line(alloc, &mut words, draft, last, line, bytes) {
            Ok(kind) => kind,
            Err(fault) => return Err(on_line(line, fault)),
        };
        if last == LineKind::Done {
            if !after.is_empty() {
                return Err(TextFault::ExtraLine { line: line + 1 });
            }
            return Ok(());
        }
        rest = after;
        line += 1;
    }
    if rest.is_empty() {
        return Err(TextFault::CutShort { line });
    }
    Err(TextFault::NoNewline { line })
}

// The fault of a line as one of the text.
fn on_line(line: u32, fault: LineFault) -> TextFault
    ensures fault { text_fault result ≡ option_map (in_line line) (line_fault fault) }
    ensures memory { result ≢ TextFault.Assemble AssembleFault.Memory }
{
    match fault {
        LineFault::Lex(fault) => TextFault::Lex { line, fault },
        LineFault::BadWord { place } => TextFault::BadWord { line, place },
        LineFault::Twice { place } => TextFault::Twice { line, place },
        LineFault::Memory => TextFault::Memory,
    }
}

// All parts, where the last line was read.
fn all_parts<'a>(draft: Draft<'a>) -> Parts<&'a str>
    ensures { result ≡ all_parts draft.entry }
{
    Parts {
        grid: draft.grid,
        horizon: draft.horizon,
        recall: draft.recall,
        tokens: draft.tokens,
        names: draft.names,
        places: Seq::from_vec(draft.places),
        root: draft.root,
        root_line: draft.root_line,
    }
}
