//! The lines of refusals.

ghost use Rattle.std.specs.Prelude.{◌≡◌, ◌∷◌, ◌++◌, OnOk, OnErr, codes};
ghost use Rattle.std.specs.Io.KnownBytes.{Appends};
ghost use Rattle.lab_io.specs.Causes.{HasCause, AppendsFront};
ghost use Rattle.lab_defs_text.specs.Numbers.{numeral};
ghost use Rattle.lab_lines.specs.Codes.{code_name};
ghost use Rattle.lab_lines.specs.Lines.{refusal_text};

use crate::code::Code;
use crate::line_buffer::LineBuffer;
use crate::number::number_word;
use itoa::Buffer;
use lab_io::{Failed, Sink};

/// A refusal: the line that it is about (counted from 1; 0 for the words of the program), its
/// code, and the text of its further words, each after a space.
#[derive(Clone, Copy)]
pub struct Refusal<'a> {
    pub line: u32,
    pub code: Code,
    pub rest: &'a [u8],
}

/// Writes the line of a refusal.
pub fn write_refusal<K: Sink>(sink: &mut K, refusal: &Refusal<'_>) -> Result<(), Failed>
    ensures whole { OnOk result (Appends (K.written sink.old) (K.written sink.new)
        (refusal_text refusal.now.line (code_name refusal.now.code) refusal.now.rest.now)) }
    ensures front { OnErr result (AppendsFront (K.written sink.old) (K.written sink.new)
        (refusal_text refusal.now.line (code_name refusal.now.code) refusal.now.rest.now)) }
    ensures cause { HasCause (K.faults sink.old) (K.faults sink.new) result }
    ensures no_fault { OnOk result (K.faults sink.new ≡ K.faults sink.old) }
{
    head(refusal.line, refusal.code).finish(sink, refusal.rest)
}

// The line of a refusal up to its code.
fn head(line: u32, code: Code) -> LineBuffer
    ensures { result ≡ codes "refused " ++ numeral line ++ 32 ∷ code_name code }
{
    let mut digits = Buffer::new();
    let mut head = LineBuffer::new();
    head.push(b"refused ");
    head.push(number_word(line, &mut digits));
    head.push(b" ");
    head.push(code.name().as_bytes());
    head
}
