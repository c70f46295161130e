//! The mode `session`: each command line is answered before the next one is read.
ghost use Rattle.std.specs.Prelude.{◌≡◌, ◌≢◌, ◌≤◌, ◌<◌, ◌+◌, ◌^◌, [], Some, IsTrue, IfOk, length};
ghost use Rattle.lab_io.specs.Causes.{Rose};
ghost use Rattle.lab_io.specs.declared.line_reader.TheConstants.{READ_AHEAD};
ghost use Rattle.lab_defs_text.specs.Words.{lines};
ghost use Rattle.lab_defs_report.specs.Cuts.{game_limit, commands_limit};
ghost use Rattle.lab_defs_report.specs.GameModes.{playable};
ghost use Rattle.lab_defs_report.specs.Headline.{start};
ghost use Rattle.lab_defs_report.specs.Modes.{this_program, is_built_command, mode_answer};
ghost use Rattle.lab_defs_report.specs.Modes as mode;
ghost use Rattle.lab_defs_report.specs.Sessions.{session_from};
ghost use Rattle.lab_input.specs.Stops.{Gives};
ghost use Rattle.lab_cli.specs.Answering.{Answered};

use crate::replies::answer_line;
use lab_input::{GamePart, Stop, game_of, refused_read, refused_recall, refused_unfolding};
use lab_io::{LineReader, Sink, Source, Took};
use lab_lines::Code;
use lab_session::{Session, StartFault};
use std::alloc::Global;

/// The most bytes after a game.
const COMMANDS_LIMIT: u64 = 67_108_864;

/// Replies to the commands after a game, up to the first refusal.
pub fn session<S: Source, K: Sink>(
    alloc: Global,
    reader: &mut LineReader,
    source: &mut S,
    sink: &mut K,
) -> Result<(), Stop>
    requires live { IsTrue reader.old.live }
    requires none_ahead { reader.old.ahead ≡ [] }
    ensures answered { Answered (λ ended input. mode_answer this_program ended input (Some mode.session)) (game_limit + commands_limit) []
        (S.left source.old) (S.left source.new) (K.written sink.old) (K.written sink.new) result }
    ensures read_later { S.faults source.old ≤ S.faults source.new }
    ensures write_later { K.faults sink.old ≤ K.faults sink.new }
    ensures read_fault { result ≡ Err Stop.ReadFault → Rose (S.faults source.old) (S.faults source.new) }
    ensures write_fault { result ≡ Err Stop.WriteFault → Rose (K.faults sink.old) (K.faults sink.new) }
    ensures no_read_fault { result ≢ Err Stop.ReadFault → S.faults source.new ≡ S.faults source.old }
    ensures no_write_fault { result ≢ Err Stop.WriteFault → K.faults sink.new ≡ K.faults sink.old }
{
    let part = GamePart::read(alloc, reader, source)?;
    let mut started = started(alloc, part.text.as_slice(), part.done)?;
    replies(alloc, part.done, &mut started, reader, source, sink)
}

// A session on the game of a text whose last line has the number `done`, or the refusal of its first fault.
fn started(alloc: Global, text: &[u8], done: u32) -> Result<Session, Stop>
    requires { length text.now < 2 ^ 32 }
    ensures game { Gives (λ s. s.game) (playable text.now done) result }
    ensures start { IfOk result (λ s. s ≡ start s.game) }
{
    let game = game_of(alloc, text)?;
    match Session::start(alloc, game) {
        Ok(session) => Ok(session),
        Err(StartFault::Unfold { game, fault }) => {
            Err(refused_unfolding(alloc, &game, done, fault))
        }
        Err(
            StartFault::Recall {
                game,
                fault,
                first,
                second,
            },
        ) => Err(refused_recall(alloc, &game, done, fault, first, second)),
        Err(StartFault::Memory) => Err(Stop::Memory),
    }
}

// Replies to the command lines after the line of `done`.
fn replies<S: Source, K: Sink>(
    alloc: Global,
    done: u32,
    session: &mut Session,
    reader: &mut LineReader,
    source: &mut S,
    sink: &mut K,
) -> Result<(), Stop>
    requires live { IsTrue reader.old.live }
    requires ahead { length reader.old.ahead ≤ READ_AHEAD }
    requires done { done ≤ game_limit }
    ensures answered { Answered (λ ended bytes. session_from is_built_command ended done 1 commands_limit session.old (lines bytes)) commands_limit reader.old.ahead
        (S.left source.old) (S.left source.new) (K.written sink.old) (K.written sink.new) result }
    ensures read_later { S.faults source.old ≤ S.faults source.new }
    ensures write_later { K.faults sink.old ≤ K.faults sink.new }
    ensures read_fault { result ≡ Err Stop.ReadFault → Rose (S.faults source.old) (S.faults source.new) }
    ensures write_fault { result ≡ Err Stop.WriteFault → Rose (K.faults sink.old) (K.faults sink.new) }
    ensures no_read_fault { result ≢ Err Stop.ReadFault → S.faults source.new ≡ S.faults source.old }
    ensures no_write_fault { result ≢ Err Stop.WriteFault → K.faults sink.new ≡ K.faults sink.old }
{
    reader.allow(COMMANDS_LIMIT);
    let mut number = 1;
    loop {
        match reader.next(source) {
            Ok(Took::Line) => {}
            Ok(Took::End) => return Ok(()),
            Err(stop) => {
                return Err(refused_read(alloc, done + number, Code::InputTooLong, stop));
            }
        }
        answer_line(alloc, session, done + number, number, reader.line(), sink)?;
        number += 1;
    }
}
