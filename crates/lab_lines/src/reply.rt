//! The lines of replies.

ghost use Rattle.std.specs.Prelude.{◌≡◌, ◌+◌, ◌≤◌, [], ◌∷◌, ◌++◌, length, OnOk, OnErr};
ghost use Rattle.std.specs.Io.KnownBytes.{Appends};
ghost use Rattle.lab_io.specs.Causes.{HasCause, AppendsFront};
ghost use Rattle.lab_defs_text.specs.Lines.{joined};
ghost use Rattle.lab_defs_text.specs.Numbers.{numeral};
ghost use Rattle.lab_lines.specs.Lines.{reply_text, Adds};
ghost use Rattle.lab_lines.specs.declared.line_buffer.TheConstants.{ROOM};
ghost use Rattle.lab_session.specs.Answers.{fraction_word, expect_words, blueprint_words, bound_words, show_words};

use crate::line_buffer::LineBuffer;
use crate::number::number_word;
use itoa::Buffer;
use lab_io::{Failed, Sink};
use lab_session::Session;
use lab_units::{Fraction, write_fraction};

/// A reply to a command.
#[derive(Clone, Copy, Debug, PartialEq, Eq)]
pub enum Reply<'a> {
    /// What seat 1 expects.
    Expect(Fraction),
    /// The bounds on what seat 1 and seat 2 can lose.
    Blueprint(Fraction, Fraction),
    /// The bound on what a seat can lose.
    Bound { seat: u32, bound: Fraction },
    /// The weights of a seat at its deciding sets, in set order.
    Show { seat: u32, weights: &'a [u32] },
}

/// Writes the line of a reply of a session.
pub fn write_reply<K: Sink>(
    sink: &mut K,
    _session: &Session,
    reply: &Reply<'_>,
) -> Result<(), Failed>
    ensures whole { OnOk result
        (Appends (K.written sink.old) (K.written sink.new) (reply_text reply.now)) }
    ensures front { OnErr result
        (AppendsFront (K.written sink.old) (K.written sink.new) (reply_text reply.now)) }
    ensures cause { HasCause (K.faults sink.old) (K.faults sink.new) result }
    ensures no_fault { OnOk result (K.faults sink.new ≡ K.faults sink.old) }
{
    match reply {
        Reply::Expect(value) => expectation(value).finish(sink, b""),
        Reply::Blueprint(first, second) => blueprint(first, second).finish(sink, b""),
        Reply::Bound { seat, bound } => bound_of(*seat, bound).finish(sink, b""),
        Reply::Show { seat, weights } => write_weights(sink, *seat, weights),
    }
}

// The words of an expectation.
fn expectation(value: &Fraction) -> LineBuffer
    ensures { result ≡ joined (expect_words value.now) }
{
    let mut line = LineBuffer::new();
    line.push(b"expect");
    push_fraction(&mut line, value);
    line
}

// The words of the reply to `blueprint`.
fn blueprint(first: &Fraction, second: &Fraction) -> LineBuffer
    ensures { result ≡ joined (blueprint_words first.now second.now) }
{
    let mut line = LineBuffer::new();
    line.push(b"blueprint");
    push_fraction(&mut line, first);
    push_fraction(&mut line, second);
    line
}

// The words of a bound.
fn bound_of(seat: u32, bound: &Fraction) -> LineBuffer
    ensures { result ≡ joined (bound_words seat bound.now) }
{
    let mut line = LineBuffer::new();
    line.push(b"bound");
    push_number(&mut line, seat);
    push_fraction(&mut line, bound);
    line
}

// Writes the line that shows weights, of which there may be more than the buffer has room for.
fn write_weights<K: Sink>(sink: &mut K, seat: u32, weights: &[u32]) -> Result<(), Failed>
    ensures whole { OnOk result
        (Appends (K.written sink.old) (K.written sink.new) (joined (show_words seat weights.now) ++ 10 ∷ [])) }
    ensures front { OnErr result
        (AppendsFront (K.written sink.old) (K.written sink.new) (joined (show_words seat weights.now) ++ 10 ∷ [])) }
    ensures cause { HasCause (K.faults sink.old) (K.faults sink.new) result }
    ensures no_fault { OnOk result (K.faults sink.new ≡ K.faults sink.old) }
{
    let mut line = shown(seat);
    for weight in weights {
        add_number(&mut line, sink, *weight)?;
    }
    line.finish(sink, b"")
}

// The words of the reply to `show` before the weights.
fn shown(seat: u32) -> LineBuffer
    ensures { result ≡ joined (show_words seat []) }
{
    let mut line = LineBuffer::new();
    line.push(b"show");
    push_number(&mut line, seat);
    line
}

// Adds a number as one more word.
fn add_number<K: Sink>(line: &mut LineBuffer, sink: &mut K, number: u32) -> Result<(), Failed>
    ensures added { OnOk result
        (Adds line.old line.new (K.written sink.old) (K.written sink.new) (32 ∷ numeral number)) }
    ensures front { OnErr result
        (AppendsFront (K.written sink.old) (K.written sink.new) (line.old ++ 32 ∷ numeral number)) }
    ensures cause { HasCause (K.faults sink.old) (K.faults sink.new) result }
    ensures no_fault { OnOk result (K.faults sink.new ≡ K.faults sink.old) }
{
    let mut digits = Buffer::new();
    line.add(sink, b" ")?;
    line.add(sink, number_word(number, &mut digits))
}

// Adds a number as one more word, for which there is room.
fn push_number(line: &mut LineBuffer, number: u32)
    requires { length line.old + 11 ≤ ROOM }
    ensures { line.new ≡ line.old ++ 32 ∷ numeral number }
{
    let mut digits = Buffer::new();
    line.push(b" ");
    line.push(number_word(number, &mut digits));
}

// Adds a fraction as one more word, for which there is room.
fn push_fraction(line: &mut LineBuffer, value: &Fraction)
    requires { length line.old + 97 ≤ ROOM }
    ensures word { line.new ≡ line.old ++ 32 ∷ fraction_word value.now }
    ensures short { length line.new ≤ length line.old + 97 }
{
    let mut digits = [0; 96];
    let length = write_fraction(value, &mut digits);
    line.push(b" ");
    line.push(&digits[..length]);
}

#[cfg(test)]
mod tests {
    use super::*;
    use lab_io::MemSink;
    use std::test::Fail;

    #[test]
    fn writes_fractions(rt: HostRuntime) -> Result<(), Fail> {
        let alloc = rt.alloc();
        let mut sink = MemSink::new(alloc, 64, Vec::new(alloc))?;
        let less = Fraction { num: -7, den: 12 };
        let half = Fraction { num: 1, den: 2 };
        expectation(&less).finish(&mut sink, b"")?;
        blueprint(&half, &less).finish(&mut sink, b"")?;
        bound_of(2, &half).finish(&mut sink, b"")?;
        let wanted = b"expect -7/12\nblueprint 1/2 -7/12\nbound 2 1/2\n".as_slice();
        assert_eq!(rt; sink.bytes(), wanted);
        Ok(())
    }

    #[test]
    fn writes_many_weights_by_few_writes(rt: HostRuntime) -> Result<(), Fail> {
        let alloc = rt.alloc();
        let weights = vec![in alloc; 4_294_967_295; 100]?;
        let mut whole = MemSink::new(alloc, 2048, Vec::new(alloc))?;
        write_weights(&mut whole, 1, &weights)?;
        assert_eq!(rt; whole.bytes().len(), 1107);
        assert!(rt; whole.bytes().starts_with(b"show 1 4294967295 4294967295 "));
        assert!(rt; whole.bytes().ends_with(b" 4294967295\n"));
        for (call, result, length) in [
            (0, Err(Failed), 0),
            (1, Err(Failed), 512),
            (2, Err(Failed), 1019),
            (3, Ok(()), 1107),
        ] {
            let mut sink = MemSink::new(alloc, 2048, vec![in alloc; call]?)?;
            assert_eq!(rt; write_weights(&mut sink, 1, &weights), result, "at {call}");
            assert_eq!(rt; sink.bytes().len(), length, "at {call}");
            assert!(rt; whole.bytes().starts_with(sink.bytes()), "at {call}");
        }
        Ok(())
    }
}
