//! The next line of a source, gathered from the bytes read ahead.

ghost use Rattle.std.specs.Prelude.{
  ◌≡◌,
  ◌<◌,
  ◌≤◌,
  ◌+◌,
  ◌++◌,
  ◌≢◌,
  ℕ,
  List,
  [],
  min,
  not,
  ◌==◌,
  vec_len,
  IsTrue,
  length,
  take,
  slice_index,
  IfOk,
  OnOk,
  IfErr,
};
ghost use Rattle.std.specs.List.{take_while};
ghost use Rattle.std.specs.declared.option.Option.{Option};
ghost use Rattle.lab_io.specs.Causes.{Rose};
ghost use Rattle.lab_io.specs.Reading.{
  Takes,
  StoppedAfter,
  LineStop,
  IsLine,
  IsKept,
  IsEnd,
  given_by,
  no_feed,
};

use crate::Source;
use crate::line_reader::{LINE_LIMIT, READ_AHEAD, ReadStop, Took};
use crate::read_ahead::ReadAhead;
use memchr::memchr;

/// Takes the bytes of the next line into an empty one, without its line feed, and asks the source
/// for more only where no whole line is read ahead.
pub fn read_line<S: Source>(
    source: &mut S,
    ahead: &mut ReadAhead,
    line: &mut Vec<u8>,
    allowance: u64,
) -> Result<Took, ReadStop>
    requires { line.old.items ≡ [] }
    ensures bytes { IfOk result (λ took. Takes ahead.old (S.left source.old)
        ahead.new (S.left source.new) (given_by took line.new.items)) }
    ensures line { IfOk result (λ took. IsKept took line.new.items) }
    ensures end { result ≡ Ok Took.End → IsEnd ahead.old ahead.new (S.left source.new) }
    ensures at_hand { IsTrue (not (no_feed ahead.old)) → source.new ≡ source.old }
    ensures short { length ahead.new ≤ READ_AHEAD }
    ensures allowance { IfOk result (λ took. length (given_by took line.new.items) ≤ allowance) }
    ensures stop { IfErr result (λ stop.
        StoppedAfter ahead.old (S.left source.old) (S.left source.new) allowance
        (LineStop allowance (S.left source.new) stop)) }
    ensures later { S.faults source.old ≤ S.faults source.new }
    ensures fault { result ≡ Err ReadStop.ReadFault →
        Rose (S.faults source.old) (S.faults source.new) }
    ensures no_fault { result ≢ Err ReadStop.ReadFault →
        S.faults source.new ≡ S.faults source.old }
{
    loop {
        let Ok(ready) = ahead.fill(source) else {
            return Err(ReadStop::ReadFault);
        };
        if ready == 0 && line.is_empty() {
            return Ok(Took::End);
        }
        if ready == 0 {
            return Err(ReadStop::NoNewline);
        }
        let count = extend_line(line, ahead.bytes(), allowance)?;
        if count < ready {
            ahead.skip(count + 1);
            return Ok(Took::Line);
        }
        ahead.skip(count);
    }
}

// Appends to a line the bytes that stand before the first line feed, or all where there is none, and
// answers how many.
fn extend_line(line: &mut Vec<u8>, ahead: &[u8], allowance: u64) -> Result<usize, ReadStop>
    requires line { IsLine line.old.items }
    requires paid { vec_len line.old ≤ allowance }
    requires short { length ahead.now ≤ READ_AHEAD }
    ensures line { OnOk result (IsLine line.new.items) }
    ensures items { IfOk result (λ count.
        line.new.items ≡ line.old.items ++ take count ahead.now) }
    ensures within { IfOk result (λ count. count ≤ length ahead.now) }
    ensures feed { IfOk result (λ count.
        count < length ahead.now → slice_index ahead.now count ≡ 10) }
    ensures paid { IfOk result (λ count.
        vec_len line.old + min (count + 1) (length ahead.now) ≤ allowance) }
    ensures stop { IfErr result (λ stop. (left : Option (List ℕ)) →
        LineStop allowance left stop (line.old.items ++ ahead.now)) }
    ensures no_fault { result ≢ Err ReadStop.ReadFault }
{
    let count = count_before_feed(ahead);
    let length = line.len() + count;
    if length > LINE_LIMIT && allowance >= LINE_LIMIT as u64 {
        return Err(ReadStop::LineTooLong);
    }
    let given = ahead.len().min(count + 1);
    if (line.len() + given) as u64 > allowance {
        return Err(ReadStop::AllowancePassed);
    }
    if line.extend_from_slice(&ahead[..count]).is_err() {
        return Err(ReadStop::Memory);
    }
    Ok(count)
}

// How many bytes stand before the first line feed, or all where there is none.
fn count_before_feed(bytes: &[u8]) -> usize
    ensures { result ≡ length (take_while (λ c. not (c == 10)) bytes.now) }
{
    memchr(b'\n', bytes).unwrap_or(bytes.len())
}
