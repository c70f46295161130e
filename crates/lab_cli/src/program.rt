//! A run of the program, from its words and a source to a sink.
ghost use Rattle.std.specs.Prelude.{◌≡◌, ◌≢◌, ◌≤◌, ◌+◌, [], map, string_bytes, IfSome, is_some, true, Ok, Some, None, IsTrue};
ghost use Rattle.std.specs.Io.KnownBytes.{Appends};
ghost use Rattle.lab_io.specs.Causes.{Rose};
ghost use Rattle.lab_defs_report.specs.Cuts.{game_limit, commands_limit};
ghost use Rattle.lab_defs_report.specs.Headline.{Headline};
ghost use Rattle.lab_defs_report.specs.Modes.{this_program, mode_in, mode_answer, is_refused_in, usage_line};
ghost use Rattle.lab_laws.specs.Printed.{PrintedLaw};
ghost use Rattle.lab_input.specs.Stops.{line_of};
ghost use Rattle.lab_cli.specs.Answering.{Answered};
ghost use Rattle.lab_cli.specs.Finishes.{Finishes, WritesLine};
ghost use Rattle.lab_cli.specs.ModeNames.{mode_model};
ghost use Rattle.lab_cli.specs.Runs.{Tells, IsAnswer, IsRejection};

use crate::check::check;
use crate::mode::{Mode, mode_of};
use crate::print::print;
use crate::session::session;
use crate::status::Status;
use lab_input::{Rejection, Stop};
use lab_io::{Failed, LineReader, Sink, Source, write_whole};
use lab_lines::write_refusal;
use std::alloc::Global;

// What is written where the words name no mode.
const USAGE: &[u8] =
    b"usage: lab session | check | print | verify | generate KIND SIZE | survey KIND SIZE\n";

/// Answers an input in the mode that the words name.
pub fn run<S: Source, K: Sink>(
    alloc: Global,
    words: &[String],
    source: &mut S,
    sink: &mut K,
) -> Status
    ensures told { Tells result (map string_bytes words.now) (S.left source.old) (S.left source.new) (K.written sink.old) (K.written sink.new) }

    // each status has its cause
    ensures later { (S.faults source.old ≤ S.faults source.new) × (K.faults sink.old ≤ K.faults sink.new) }
    ensures read_fault { result ≡ Status.ReadFault → Rose (S.faults source.old) (S.faults source.new) }
    ensures write_fault { result ≡ Status.WriteFault → Rose (K.faults sink.old) (K.faults sink.new) }

    // and no other status follows a read or a write that failed
    ensures no_read_fault { result ≢ Status.ReadFault → S.faults source.new ≡ S.faults source.old }
    ensures no_write_fault { result ≢ Status.WriteFault → K.faults sink.new ≡ K.faults sink.old }
    ensures answer { is_some (mode_in this_program (map string_bytes words.now)) ≡ true → IfSome (S.left source.old) (λ input.
        ¬ Rose (S.faults source.old) (S.faults source.new) → ¬ Rose (K.faults sink.old) (K.faults sink.new) → IsAnswer result (is_refused_in this_program (map string_bytes words.now) input)) }

    // words that are no mode are answered with the usage line, and the source is not read
    ensures bad_words { result ≡ Status.BadWords → (mode_in this_program (map string_bytes words.now) ≡ None) × Appends (K.written sink.old) (K.written sink.new) usage_line }
    ensures no_mode { mode_in this_program (map string_bytes words.now) ≡ None → (source.new ≡ source.old) × IsRejection result }

    // what a session writes is the report that the definitions give, and these are the laws of their sessions: the strategies are guarded, and the
    // bounds and expectations are printed exactly
    ensures headline { Headline }
    ensures printed { PrintedLaw }
{
    match mode_of(words) {
        Some(mode) => {
            let ended = answer(alloc, mode, source, sink);
            finish(sink, ended)
        }
        None => usage(sink),
    }
}

// Answers an input in a mode, but for the line of a refusal.
fn answer<S: Source, K: Sink>(
    alloc: Global,
    mode: Mode,
    source: &mut S,
    sink: &mut K,
) -> Result<(), Stop>
    ensures answered { Answered (λ ended input. mode_answer this_program ended input (Some (mode_model mode))) (game_limit + commands_limit) []
        (S.left source.old) (S.left source.new) (K.written sink.old) (K.written sink.new) result }
    ensures read_later { S.faults source.old ≤ S.faults source.new }
    ensures write_later { K.faults sink.old ≤ K.faults sink.new }
    ensures read_fault { result ≡ Err Stop.ReadFault → Rose (S.faults source.old) (S.faults source.new) }
    ensures write_fault { result ≡ Err Stop.WriteFault → Rose (K.faults sink.old) (K.faults sink.new) }
    ensures no_read_fault { result ≢ Err Stop.ReadFault → S.faults source.new ≡ S.faults source.old }
    ensures no_write_fault { result ≢ Err Stop.WriteFault → K.faults sink.new ≡ K.faults sink.old }
{
    let Ok(mut reader) = LineReader::start(alloc) else {
        return Err(Stop::Memory);
    };
    match mode {
        Mode::Session => session(alloc, &mut reader, source, sink),
        Mode::Check => check(alloc, &mut reader, source, sink),
        Mode::Print => print(alloc, &mut reader, source, sink),
    }
}

// Writes the refusal that ended a run, if one did, and reports how the run ended.
fn finish<K: Sink>(sink: &mut K, ended: Result<(), Stop>) -> Status
    ensures finishes { Finishes ended (K.written sink.old) (K.written sink.new) result }
    ensures later { K.faults sink.old ≤ K.faults sink.new }
    ensures fault { result ≡ Status.WriteFault → ended ≢ Err Stop.WriteFault → Rose (K.faults sink.old) (K.faults sink.new) }
    ensures no_fault { result ≢ Status.WriteFault → K.faults sink.new ≡ K.faults sink.old }
{
    match ended {
        Ok(()) => Status::Done,
        Err(Stop::Refused(rejection)) => refuse(sink, &rejection),
        Err(Stop::ReadFault) => Status::ReadFault,
        Err(Stop::WriteFault) => Status::WriteFault,
        Err(Stop::Memory) => Status::Memory,
    }
}

// Writes a refusal.
fn refuse<K: Sink>(sink: &mut K, rejection: &Rejection) -> Status
    ensures line { WritesLine (line_of rejection.now) Status.Refused (K.written sink.old) (K.written sink.new) result }
    ensures later { K.faults sink.old ≤ K.faults sink.new }
    ensures fault { result ≡ Status.WriteFault → Rose (K.faults sink.old) (K.faults sink.new) }
    ensures no_fault { result ≢ Status.WriteFault → K.faults sink.new ≡ K.faults sink.old }
{
    match write_refusal(sink, &rejection.refusal()) {
        Ok(()) => Status::Refused,
        Err(Failed) => Status::WriteFault,
    }
}

// Writes the usage line.
fn usage<K: Sink>(sink: &mut K) -> Status
    ensures line { WritesLine usage_line Status.BadWords (K.written sink.old) (K.written sink.new) result }
    ensures later { K.faults sink.old ≤ K.faults sink.new }
    ensures fault { result ≡ Status.WriteFault → Rose (K.faults sink.old) (K.faults sink.new) }
    ensures no_fault { result ≢ Status.WriteFault → K.faults sink.new ≡ K.faults sink.old }
{
    match write_whole(sink, USAGE) {
        Ok(()) => Status::BadWords,
        Err(Failed) => Status::WriteFault,
    }
}
