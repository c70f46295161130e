//! Games read from their texts, and the refusals of what is wrong with a text.
ghost use Rattle.std.specs.Prelude.{◌≡◌, ◌+◌, ◌<◌, ◌^◌, length};
ghost use Rattle.lab_defs_report.specs.Refusals.{listed_action as action_listed};
ghost use Rattle.lab_defs_report.specs.GameModes.{read_text};
ghost use Rattle.lab_world.specs.Games.{game_model};
ghost use Rattle.lab_text.specs.Faults.{text_fault};
ghost use Rattle.lab_input.specs.Stops.{RefusesText, Gives};
ghost use Rattle.lab_world.specs.Drafts.{assemble_fault};

use crate::pieces::piece;
use crate::refusals::{refused, refused_lex, refused_number, refused_with};
use crate::stop::Stop;
use lab_lines::Code;
use lab_text::{TextFault, read_game};
use lab_world::{AssembleFault, Game};
use std::alloc::Global;

/// The game of a text, or the refusal of its first fault.
pub fn game_of(alloc: Global, text: &[u8]) -> Result<Game, Stop>
    requires { length text.now < 2 ^ 32 }
    ensures { Gives game_model (read_text text.now) result }
{
    match read_game(alloc, text) {
        Ok(game) => Ok(game),
        Err(fault) => Err(refused_text(alloc, text, fault)),
    }
}

// The refusal of a fault of a text.
fn refused_text(alloc: Global, text: &[u8], fault: TextFault) -> Stop
    ensures { RefusesText text.now (text_fault fault) result }
{
    match fault {
        TextFault::CutShort { line } => refused(alloc, line, Code::CutShort),
        TextFault::NoNewline { line } => refused(alloc, line, Code::NoNewline),
        TextFault::ExtraLine { line } => refused(alloc, line, Code::ExtraLine),
        TextFault::Lex { line, fault } => refused_lex(alloc, line, fault),
        TextFault::BadWord { line, place } => refused_number(alloc, line, Code::BadWord, place),
        TextFault::Twice { line, place } => refused_number(alloc, line, Code::Twice, place),
        TextFault::Assemble(fault) => refused_parts(alloc, text, fault),
        TextFault::Memory => Stop::Memory,
    }
}

// The refusal of a fault of lines that each may be where they are.
fn refused_parts(alloc: Global, text: &[u8], fault: AssembleFault) -> Stop
    ensures { RefusesText text.now (assemble_fault fault) result }
{
    match fault {
        AssembleFault::UnknownName { line, place } => {
            refused_number(alloc, line, Code::UnknownName, place)
        }
        AssembleFault::ExtraRow { line } => refused(alloc, line, Code::ExtraRow),
        AssembleFault::MissingRow {
            line,
            first,
            second,
        } => {
            let one = listed_action(text, line as u64 + 1, first);
            let two = listed_action(text, line as u64 + 2, second);
            refused_with(alloc, line, Code::MissingRow, &[one, two])
        }
        AssembleFault::NoRoot { line } => refused(alloc, line, Code::NoRoot),
        AssembleFault::Memory => Stop::Memory,
    }
}

// The action with a number, by the words of the line that lists it; empty where there is none.
fn listed_action(text: &[u8], line: u64, number: u32) -> &[u8]
    requires { 0 < line }
    ensures { result.now ≡ action_listed text.now line number }
{
    piece(
        piece(text, b'\n', (line - 1) as usize),
        b' ',
        number as usize + 1,
    )
}
