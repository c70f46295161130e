//! The mode `print`.
ghost use Rattle.std.specs.Prelude.{◌≡◌, ◌≢◌, ◌≤◌, ◌+◌, [], Some, IsTrue};
ghost use Rattle.lab_io.specs.Causes.{Rose};
ghost use Rattle.lab_defs_report.specs.Cuts.{game_limit};
ghost use Rattle.lab_defs_report.specs.Modes as mode;
ghost use Rattle.lab_defs_report.specs.Modes.{this_program, mode_answer};
ghost use Rattle.lab_cli.specs.Answering.{Answered};

use crate::output::write_all;
use lab_input::{GamePart, Stop, check_end, game_of};
use lab_io::{LineReader, Sink, Source};
use lab_text::write_game_over;
use std::alloc::Global;

/// Writes the canonical text of the game of an input that has nothing after it.
pub fn print<S: Source, K: Sink>(
    alloc: Global,
    reader: &mut LineReader,
    source: &mut S,
    sink: &mut K,
) -> Result<(), Stop>
    requires live { IsTrue reader.old.live }
    requires none_ahead { reader.old.ahead ≡ [] }
    ensures answered { Answered (λ ended input. mode_answer this_program ended input (Some mode.print)) game_limit []
        (S.left source.old) (S.left source.new) (K.written sink.old) (K.written sink.new) result }
    ensures read_later { S.faults source.old ≤ S.faults source.new }
    ensures write_later { K.faults sink.old ≤ K.faults sink.new }
    ensures read_fault { result ≡ Err Stop.ReadFault → Rose (S.faults source.old) (S.faults source.new) }
    ensures write_fault { result ≡ Err Stop.WriteFault → Rose (K.faults sink.old) (K.faults sink.new) }
    ensures no_read_fault { result ≢ Err Stop.ReadFault → S.faults source.new ≡ S.faults source.old }
    ensures no_write_fault { result ≢ Err Stop.WriteFault → K.faults sink.new ≡ K.faults sink.old }
{
    let mut part = GamePart::read(alloc, reader, source)?;
    let game = game_of(alloc, part.text.as_slice())?;
    check_end(alloc, part.done, reader, source)?;
    let Ok(()) = write_game_over(&mut part.text, &game) else {
        return Err(Stop::Memory);
    };
    write_all(sink, part.text.as_slice())
}
