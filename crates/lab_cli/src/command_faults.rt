//! The refusals of commands that a session does not take.
ghost use Rattle.std.specs.Prelude.{◌∷◌, []};
ghost use Rattle.lab_defs_text.specs.Numbers.{numeral};
ghost use Rattle.lab_defs_report.specs.Refusals.{refused as refusal_of};
ghost use Rattle.lab_session.specs.Answers.{fault_in};
ghost use Rattle.lab_lines.specs.Codes.{code_name};
ghost use Rattle.lab_input.specs.Stops.{IsRefusal};
ghost use Rattle.lab_cli.specs.CommandStops.{RefusesCommand};

use itoa::Buffer;
use lab_input::{Stop, refused, refused_with};
use lab_lines::{Code, number_word};
use lab_session::SessionFault;
use std::alloc::Global;

/// The refusal of a command that a session does not take, at its line.
pub fn refused_command(alloc: Global, line: u32, fault: SessionFault) -> Stop
    ensures { RefusesCommand line (fault_in fault) result }
{
    match fault {
        SessionFault::NoBlueprint => refused(alloc, line, Code::NoBlueprint),
        SessionFault::SecondBlueprint => refused(alloc, line, Code::SecondBlueprint),
        SessionFault::BadSeat => refused(alloc, line, Code::BadSeat),
        SessionFault::BadRounds => refused(alloc, line, Code::BadRounds),
        SessionFault::WrongCount { needed, given } => {
            refused_numbers(alloc, line, Code::WrongCount, needed, given)
        }
        SessionFault::WrongSum { seat, set } => {
            refused_numbers(alloc, line, Code::WrongSum, seat, set.0)
        }
        SessionFault::Memory => Stop::Memory,
    }
}

// A refusal with two numbers for its further words.
fn refused_numbers(alloc: Global, line: u32, code: Code, first: u32, second: u32) -> Stop
    ensures { IsRefusal (refusal_of line (code_name code) (numeral first ∷ numeral second ∷ [])) result }
{
    let mut digits1 = Buffer::new();
    let mut digits2 = Buffer::new();
    let first = number_word(first, &mut digits1);
    let second = number_word(second, &mut digits2);
    refused_with(alloc, line, code, &[first, second])
}
