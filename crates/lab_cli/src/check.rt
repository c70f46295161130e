//! The mode `check`.
ghost use Rattle.std.specs.Prelude.{◌≡◌, ◌≢◌, ◌≤◌, ◌+◌, [], Some, IsTrue};
ghost use Rattle.lab_io.specs.Causes.{Rose};
ghost use Rattle.lab_defs_report.specs.Cuts.{game_limit};
ghost use Rattle.lab_defs_report.specs.Modes as mode;
ghost use Rattle.lab_defs_report.specs.Modes.{this_program, mode_answer};
ghost use Rattle.lab_cli.specs.Answering.{Answered};

use crate::counts::line_of_game;
use crate::output::write_all;
use lab_input::{GamePart, Stop, check_end, played_game};
use lab_io::{LineReader, Sink, Source};
use std::alloc::Global;

/// Writes what is counted of the game of an input that has nothing after it.
pub fn check<S: Source, K: Sink>(
    alloc: Global,
    reader: &mut LineReader,
    source: &mut S,
    sink: &mut K,
) -> Result<(), Stop>
    requires live { IsTrue reader.old.live }
    requires none_ahead { reader.old.ahead ≡ [] }
    ensures answered { Answered (λ ended input. mode_answer this_program ended input (Some mode.check)) game_limit []
        (S.left source.old) (S.left source.new) (K.written sink.old) (K.written sink.new) result }
    ensures read_later { S.faults source.old ≤ S.faults source.new }
    ensures write_later { K.faults sink.old ≤ K.faults sink.new }
    ensures read_fault { result ≡ Err Stop.ReadFault → Rose (S.faults source.old) (S.faults source.new) }
    ensures write_fault { result ≡ Err Stop.WriteFault → Rose (K.faults sink.old) (K.faults sink.new) }
    ensures no_read_fault { result ≢ Err Stop.ReadFault → S.faults source.new ≡ S.faults source.old }
    ensures no_write_fault { result ≢ Err Stop.WriteFault → K.faults sink.new ≡ K.faults sink.old }
{
    let part = GamePart::read(alloc, reader, source)?;
    let played = played_game(alloc, part.text.as_slice(), part.done)?;
    check_end(alloc, part.done, reader, source)?;
    let line = line_of_game(alloc, played)?;
    write_all(sink, line.as_slice())
}
