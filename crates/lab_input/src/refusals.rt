//! Refusals that keep the text of their further words.
ghost use Rattle.std.specs.Prelude.{◌≡◌, ◌∷◌, ◌++◌, [], map, OnOk, IfOk};
ghost use Rattle.lab_defs_text.specs.Numbers.{numeral};
ghost use Rattle.lab_defs_report.specs.Refusals.{refused as refusal_of, refused_lexical};
ghost use Rattle.lab_lex.specs.Faults.{lex_model};
ghost use Rattle.lab_lines.specs.Codes.{code_name};
ghost use Rattle.lab_lines.specs.Lines.{spaced};
ghost use Rattle.lab_text.specs.Faults.{line_fault};
ghost use Rattle.lab_input.specs.Stops.{IsRefusal, RefusesLine, RefusesRead};

use crate::stop::Stop;
use itoa::Buffer;
use lab_io::ReadStop;
use lab_lex::LexFault;
use lab_lines::{Code, Refusal, number_word};
use lab_text::LineFault;
use std::alloc::{AllocError, Global};

/// A refusal of an input: its line, its code, and the text of its further words, each after a space.
#[derive(Drop)]
pub struct Rejection {
    pub line: u32,
    pub code: Code,
    pub rest: Vec<u8>,
}

impl Rejection {
    /// The refusal, to be written.
    pub fn refusal(&self) -> Refusal<'_>
        ensures line { result.line ≡ self.now.line }
        ensures code { result.code ≡ self.now.code }
        ensures rest { result.rest.now ≡ self.now.rest.items }
    {
        Refusal {
            line: self.line,
            code: self.code,
            rest: self.rest.as_slice(),
        }
    }
}

/// A refusal at a line of the input, with no further word.
pub fn refused(alloc: Global, line: u32, code: Code) -> Stop
    ensures { IsRefusal (refusal_of line (code_name code) []) result }
{
    Stop::Refused(Rejection {
        line,
        code,
        rest: Vec::new(alloc),
    })
}

/// A refusal at a line of the input, with further words.
pub fn refused_with(alloc: Global, line: u32, code: Code, words: &[&[u8]]) -> Stop
    ensures { IsRefusal (refusal_of line (code_name code) (map (λ w. w.now) words.now)) result }
{
    match spaced_words(alloc, words) {
        Ok(rest) => Stop::Refused(Rejection { line, code, rest }),
        Err(AllocError) => Stop::Memory,
    }
}

// The text of words, each after a space.
fn spaced_words(alloc: Global, words: &[&[u8]]) -> Result<Vec<u8>, AllocError>
    ensures { IfOk result (λ text. text.items ≡ spaced (map (λ w. w.now) words.now)) }
{
    let mut text = Vec::new(alloc);
    for word in words {
        text.push(b' ')?;
        text.extend_from_slice(word)?;
    }
    Ok(text)
}

/// A refusal with a number for its one further word.
pub fn refused_number(alloc: Global, line: u32, code: Code, number: u32) -> Stop
    ensures { IsRefusal (refusal_of line (code_name code) (numeral number ∷ [])) result }
{
    let mut digits = Buffer::new();
    refused_with(alloc, line, code, &[number_word(number, &mut digits)])
}

/// A scale of chances as a word.
pub fn scale_word<'a>(scale: u128, digits: &'a mut Buffer) -> &'a [u8]
    ensures { result.now ≡ numeral scale }
{
    digits.format(scale).as_bytes()
}

/// A word of a line that is wrong in itself.
pub fn refused_lex(alloc: Global, line: u32, fault: LexFault) -> Stop
    ensures { IsRefusal (refused_lexical line (lex_model fault)) result }
{
    match fault {
        LexFault::BadSpace { place } => refused_number(alloc, line, Code::BadSpace, place),
        LexFault::BadName { place } => refused_number(alloc, line, Code::BadName, place),
        LexFault::BadNumber { place } => refused_number(alloc, line, Code::BadNumber, place),
        LexFault::OutOfRange { place } => refused_number(alloc, line, Code::OutOfRange, place),
    }
}

/// The refusal of a fault of a command line.
pub fn refused_line(alloc: Global, line: u32, fault: LineFault) -> Stop
    ensures { RefusesLine line (line_fault fault) result }
{
    match fault {
        LineFault::Lex(fault) => refused_lex(alloc, line, fault),
        LineFault::BadWord { place } => refused_number(alloc, line, Code::BadWord, place),
        LineFault::Twice { place } => refused_number(alloc, line, Code::Twice, place),
        LineFault::Memory => Stop::Memory,
    }
}

/// Why a line of the input was not read; `passed` is the code of the bytes that are allowed.
pub fn refused_read(alloc: Global, line: u32, passed: Code, stop: ReadStop) -> Stop
    ensures { RefusesRead line (code_name passed) stop result }
{
    match stop {
        ReadStop::NoNewline => refused(alloc, line, Code::NoNewline),
        ReadStop::LineTooLong => refused(alloc, line, Code::LineTooLong),
        ReadStop::AllowancePassed => refused(alloc, line, passed),
        ReadStop::ReadFault => Stop::ReadFault,
        ReadStop::Memory => Stop::Memory,
    }
}
