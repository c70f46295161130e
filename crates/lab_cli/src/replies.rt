//! The reply to one command line.
ghost use Rattle.std.specs.Prelude.{◌≡◌, ◌≢◌, ◌≤◌, true, length};
ghost use Rattle.lab_io.specs.Causes.{Rose};
ghost use Rattle.lab_defs_report.specs.Commands as definition;
ghost use Rattle.lab_defs_report.specs.Cuts.{commands_limit};
ghost use Rattle.lab_defs_report.specs.Modes.{is_built_command};
ghost use Rattle.lab_defs_report.specs.Sessions.{answered, replied};
ghost use Rattle.lab_defs_report.specs.States.{State};
ghost use Rattle.lab_session.specs.Answers.{Steps};
ghost use Rattle.lab_lines.specs.Lines.{reply_words};
ghost use Rattle.lab_commands.specs.Commands.{command_model};
ghost use Rattle.lab_cli.specs.CommandStops.{GivesFew};
ghost use Rattle.lab_cli.specs.LineReplies.{Replies};

use crate::calls::{blueprint, bound, expect, expect_uniform, show};
use crate::command_faults::refused_command;
use lab_commands::{Command, command_at};
use lab_input::{Stop, refused, refused_line};
use lab_io::{Failed, Sink};
use lab_lines::{Code, Reply, write_reply};
use lab_session::{How, Session, SessionFault};
use std::alloc::Global;

/// Writes the reply to the command line with a number, which is on a line of the input.
pub fn answer_line<K: Sink>(
    alloc: Global,
    session: &mut Session,
    line: u32,
    number: u32,
    bytes: &[u8],
    sink: &mut K,
) -> Result<(), Stop>
    requires { length bytes.now ≤ commands_limit }
    ensures replies { Replies session.old (answered is_built_command line number session.old bytes.now) session.new (K.written sink.old) (K.written sink.new) result }
    ensures no_read_fault { result ≢ Err Stop.ReadFault }
    ensures later { K.faults sink.old ≤ K.faults sink.new }
    ensures fault { result ≡ Err Stop.WriteFault → Rose (K.faults sink.old) (K.faults sink.new) }
    ensures no_fault { result ≢ Err Stop.WriteFault → K.faults sink.new ≡ K.faults sink.old }
{
    match command_at(alloc, number, bytes) {
        Ok(command) => answer(alloc, session, line, &command, sink),
        Err(fault) => Err(refused_line(alloc, line, fault)),
    }
}

// Writes the reply to a command on a line of the input.
fn answer<K: Sink>(
    alloc: Global,
    session: &mut Session,
    line: u32,
    command: &Command,
    sink: &mut K,
) -> Result<(), Stop>
    requires { GivesFew (command_model command.now) }
    ensures replies { Replies session.old (replied is_built_command line session.old (command_model command.now)) session.new (K.written sink.old) (K.written sink.new) result }
    ensures no_read_fault { result ≢ Err Stop.ReadFault }
    ensures later { K.faults sink.old ≤ K.faults sink.new }
    ensures fault { result ≡ Err Stop.WriteFault → Rose (K.faults sink.old) (K.faults sink.new) }
    ensures no_fault { result ≢ Err Stop.WriteFault → K.faults sink.new ≡ K.faults sink.old }
{
    match command {
        Command::ExpectUniform => {
            let reply = expect_uniform(session);
            write(alloc, session, line, reply, sink)
        }
        Command::Expect => write(alloc, session, line, expect(session), sink),
        Command::BlueprintUniform => {
            let reply = blueprint(session, How::Uniform);
            write(alloc, session, line, reply, sink)
        }
        Command::BlueprintGiven { weights } => {
            let weights = weights.as_slice();
            let reply = blueprint(session, How::Given { weights });
            write(alloc, session, line, reply, sink)
        }
        Command::BlueprintSolve { rounds } => {
            let reply = blueprint(session, How::Solve { rounds: *rounds });
            write(alloc, session, line, reply, sink)
        }
        Command::Bound { seat } => write(alloc, session, line, bound(session, *seat), sink),
        Command::Show { seat } => write(alloc, session, line, show(session, *seat), sink),
        Command::Propose { .. }
        | Command::Resolve { .. }
        | Command::Cert { .. }
        | Command::Deal { .. }
        | Command::Play { .. } => Err(refused(alloc, line, Code::NotBuilt)),
    }
}

// Writes a reply of a session, or refuses the command on this line.
fn write<K: Sink>(
    alloc: Global,
    session: &Session,
    line: u32,
    reply: Result<Reply<'_>, SessionFault>,
    sink: &mut K,
) -> Result<(), Stop>
    ensures replies { (before : State) (c : definition.Command) → is_built_command c ≡ true → Steps reply_words before c session.now reply.entry
        → Replies before (replied is_built_command line before c) session.now (K.written sink.old) (K.written sink.new) result }
    ensures no_read_fault { result ≢ Err Stop.ReadFault }
    ensures later { K.faults sink.old ≤ K.faults sink.new }
    ensures fault { result ≡ Err Stop.WriteFault → Rose (K.faults sink.old) (K.faults sink.new) }
    ensures no_fault { result ≢ Err Stop.WriteFault → K.faults sink.new ≡ K.faults sink.old }
{
    match reply {
        Ok(reply) => match write_reply(sink, session, &reply) {
            Ok(()) => Ok(()),
            Err(Failed) => Err(Stop::WriteFault),
        },
        Err(fault) => Err(refused_command(alloc, line, fault)),
    }
}
