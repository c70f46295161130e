//! A command read from its line.
ghost use Rattle.std.specs.Prelude.{◌≡◌, ◌<◌, ◌+◌, ◌^◌, length, map, IfOk};
ghost use Rattle.lab_defs_text.specs.Agreement.{Agrees};
ghost use Rattle.lab_defs_text.specs.Words.{words as words_in};
ghost use Rattle.lab_defs_report.specs.Commands.{command_at as command_on, command_of};
ghost use Rattle.lab_commands.specs.Commands.{command_model};
ghost use Rattle.lab_text.specs.Drafts.{pieces};
ghost use Rattle.lab_text.specs.Faults.{line_fault};

use crate::command::Command;
use crate::kinds::{blueprint, bound, cert, deal, expect, play, propose, resolve, show};
use lab_text::{LineFault, all_words};
use std::alloc::Global;

/// The command that a line gives, its line being the command line with a number, or the first fault of the line.
pub fn command_at(alloc: Global, number: u32, line: &[u8]) -> Result<Command, LineFault>
    requires { length line.now + 3 < 2 ^ 32 }
    ensures { Agrees command_model line_fault result (command_on number line.now) }
{
    let words = all_words(alloc, line)?;
    command(alloc, number, words.as_slice())
}

// The command that words give.
fn command(alloc: Global, number: u32, words: &[&[u8]]) -> Result<Command, LineFault>
    requires { length words.now + 2 < 2 ^ 32 }
    ensures { Agrees command_model line_fault result (command_of number (pieces words.now)) }
{
    let Some((word, rest)) = words.split_first() else {
        return Err(LineFault::BadWord { place: 1 });
    };
    if *word == b"expect".as_slice() {
        return expect(rest);
    }
    if *word == b"blueprint".as_slice() {
        return blueprint(alloc, rest);
    }
    if *word == b"bound".as_slice() {
        return bound(rest);
    }
    if *word == b"show".as_slice() {
        return show(rest);
    }
    if *word == b"propose".as_slice() {
        return propose(alloc, rest);
    }
    if *word == b"resolve".as_slice() {
        return resolve(rest);
    }
    if *word == b"cert".as_slice() {
        return cert(rest);
    }
    if *word == b"deal".as_slice() {
        return deal(alloc, rest);
    }
    if *word == b"play".as_slice() {
        return play(number, rest);
    }
    Err(LineFault::BadWord { place: 1 })
}
