//! A reader of lines that takes no more bytes of a source than its allowance and one buffer.

ghost use Rattle.std.specs.Prelude.{
  ◌≡◌,
  ◌≢◌,
  ◌≤◌,
  ◌+◌,
  ◌-◌,
  [],
  true,
  not,
  IsTrue,
  length,
  drop,
  is_ok,
  IfOk,
  OnOk,
  OnErr,
  IfErr,
};
ghost use Rattle.std.specs.Io.KnownBytes.{IsAtEnd};
ghost use Rattle.lab_io.specs.Causes.{Rose};
ghost use Rattle.lab_io.specs.Reading.{
  Takes,
  StoppedAfter,
  LineStop,
  RestStop,
  IsKept,
  IsEnd,
  given_by,
  no_feed,
};

use crate::line::read_line;
use crate::read_ahead::ReadAhead;
use crate::{NoMemory, Source};
use std::alloc::Global;
use std::marker::Model;

/// How many bytes a reader holds beside what it has given: the length of its buffer.
pub const READ_AHEAD: usize = 65536;

/// The most bytes of a line, without its line feed.
pub const LINE_LIMIT: usize = 1_048_576;

/// What the next line is.
#[derive(Clone, Copy, Debug, PartialEq, Eq)]
pub enum Took {
    /// A line, which the reader keeps without its line feed.
    Line,
    /// None: the input ended where a line would begin.
    End,
}

/// Why a read stopped before it had what it was to give.
#[derive(Clone, Copy, Debug, PartialEq, Eq)]
pub enum ReadStop {
    /// The input ended inside a line.
    NoNewline,
    /// The line has more bytes than LINE_LIMIT.
    LineTooLong,
    /// There are more bytes than the reader may give.
    AllowancePassed,
    /// The source failed.
    ReadFault,
    /// No memory was left for the bytes.
    Memory,
}

/// A reader with an allowance of bytes, which reads ahead of what it gives. It is live until a read
/// stops with an error.
#[derive(Drop)]
pub struct LineReader {
    alloc: Global,
    ahead: ReadAhead,
    line: Vec<u8>,
    allowance: u64,
    live: bool,
}

impl Model for LineReader {
    ghost use Rattle.lab_io.specs.Reading.{Reader};

    ghost Value = { Reader };

    ghost view = { λ r. record {
      ahead = r.ahead;
      line = r.line.items;
      allowance = r.allowance;
      live = r.live;
    } };
}

impl LineReader {
    /// A live reader with no byte read ahead, which may give none yet.
    pub fn start(alloc: Global) -> Result<LineReader, NoMemory>
        ensures { IfOk result (λ r. r ≡ record {
          ahead = [];
          line = [];
          allowance = 0;
          live = true;
        }) }
    {
        Ok(LineReader {
            alloc,
            ahead: ReadAhead::new(alloc)?,
            line: Vec::new(alloc),
            allowance: 0,
            live: true,
        })
    }

    /// Sets how many more bytes it may give, as lines with their line feeds or as the rest. A byte
    /// that was read ahead counts when it is given.
    pub fn allow(&mut self, bytes: u64)
        ensures { self.new ≡ record self.old { allowance = bytes } }
    {
        self.allowance = bytes;
    }

    /// Whether it may still read.
    pub fn live(&self) -> bool
        ensures { result ≡ self.now.live }
    {
        self.live
    }

    /// The line that the last call of `next` took, without its line feed. It is empty where that call
    /// took none, and after `give` and `rest`.
    pub fn line(&self) -> &[u8]
        ensures { result.now ≡ self.now.line }
    {
        self.line.as_slice()
    }

    /// The bytes that were read ahead and not given yet.
    pub fn ahead(&self) -> &[u8]
        ensures bytes { result.now ≡ self.now.ahead }
        ensures short { length result.now ≤ READ_AHEAD }
    {
        self.ahead.bytes()
    }

    /// Gives the first bytes of those read ahead, which the caller has read there, and keeps no line.
    pub fn give(&mut self, count: usize)
        requires within { count ≤ length self.old.ahead }
        requires paid { count ≤ self.old.allowance }
        ensures { self.new ≡ record self.old {
          ahead = drop count self.old.ahead;
          line = [];
          allowance = self.old.allowance - count;
        } }
    {
        self.ahead.skip(count);
        self.line.clear();
        self.allowance -= count as u64;
    }

    /// Takes the next line, or finds the end of input where a line would begin. It asks the source for
    /// more only where no whole line is read ahead. Where the reader stops with an error, what it had
    /// taken is lost: at most a buffer past the allowance.
    pub fn next<S: Source>(&mut self, source: &mut S) -> Result<Took, ReadStop>
        requires { IsTrue self.old.live }
        ensures bytes { IfOk result (λ took. Takes self.old.ahead (S.left source.old)
            self.new.ahead (S.left source.new) (given_by took self.new.line)) }
        ensures line { IfOk result (λ took. IsKept took self.new.line) }
        ensures end { result ≡ Ok Took.End →
            IsEnd self.old.ahead self.new.ahead (S.left source.new) }
        ensures at_hand { IsTrue (not (no_feed self.old.ahead)) → source.new ≡ source.old }
        ensures short { length self.new.ahead ≤ READ_AHEAD }
        ensures allowance { IfOk result (λ took.
            self.new.allowance + length (given_by took self.new.line) ≡ self.old.allowance) }
        ensures stop { IfErr result (λ stop.
            StoppedAfter self.old.ahead (S.left source.old) (S.left source.new) self.old.allowance
            (LineStop self.old.allowance (S.left source.new) stop)) }
        ensures later { S.faults source.old ≤ S.faults source.new }
        ensures fault { result ≡ Err ReadStop.ReadFault →
            Rose (S.faults source.old) (S.faults source.new) }
        ensures no_fault { result ≢ Err ReadStop.ReadFault →
            S.faults source.new ≡ S.faults source.old }
        ensures live { self.new.live ≡ is_ok result }
        ensures same_allowance { OnErr result (self.new.allowance ≡ self.old.allowance) }
        ensures no_line { OnErr result (self.new.line ≡ []) }
    {
        self.line.clear();
        let outcome = read_line(source, &mut self.ahead, &mut self.line, self.allowance);
        match outcome {
            Ok(Took::Line) => self.allowance -= self.line.len() as u64 + 1,
            Ok(Took::End) => {}
            Err(_) => {
                self.line.clear();
                self.live = false;
            }
        }
        outcome
    }

    /// Reads to the end of the source, and gives all the bytes, those read ahead first. Where the
    /// reader stops before the end, what it had taken is lost: at most a buffer past the allowance.
    pub fn rest<S: Source>(&mut self, source: &mut S) -> Result<Vec<u8>, ReadStop>
        requires { IsTrue self.old.live }
        ensures bytes { IfOk result (λ v. Takes self.old.ahead (S.left source.old)
            self.new.ahead (S.left source.new) v.items) }
        ensures end { OnOk result (IsAtEnd (S.left source.new)) }
        ensures none_ahead { OnOk result (self.new.ahead ≡ []) }
        ensures allowance { IfOk result (λ v. self.new.allowance + length v.items ≡ self.old.allowance) }
        ensures stop { IfErr result (λ stop.
            StoppedAfter self.old.ahead (S.left source.old) (S.left source.new) self.old.allowance
            (RestStop self.old.allowance stop)) }
        ensures later { S.faults source.old ≤ S.faults source.new }
        ensures fault { result ≡ Err ReadStop.ReadFault →
            Rose (S.faults source.old) (S.faults source.new) }
        ensures no_fault { result ≢ Err ReadStop.ReadFault →
            S.faults source.new ≡ S.faults source.old }
        ensures live { self.new.live ≡ is_ok result }
        ensures same_allowance { OnErr result (self.new.allowance ≡ self.old.allowance) }
        ensures no_line { self.new.line ≡ [] }
    {
        self.line.clear();
        let outcome = read_to_end(source, &mut self.ahead, self.allowance, self.alloc);
        match &outcome {
            Ok(bytes) => self.allowance -= bytes.len() as u64,
            Err(_) => self.live = false,
        }
        outcome
    }
}

// Reads to the end by way of the bytes read ahead, and gives all where they are no more than the
// allowance.
fn read_to_end<S: Source>(
    source: &mut S,
    ahead: &mut ReadAhead,
    allowance: u64,
    alloc: Global,
) -> Result<Vec<u8>, ReadStop>
    ensures bytes { IfOk result (λ v. Takes ahead.old (S.left source.old)
        ahead.new (S.left source.new) v.items) }
    ensures end { OnOk result (IsAtEnd (S.left source.new)) }
    ensures none_ahead { OnOk result (ahead.new ≡ []) }
    ensures allowance { IfOk result (λ v. length v.items ≤ allowance) }
    ensures stop { IfErr result (λ stop.
        StoppedAfter ahead.old (S.left source.old) (S.left source.new) allowance
        (RestStop allowance stop)) }
    ensures later { S.faults source.old ≤ S.faults source.new }
    ensures fault { result ≡ Err ReadStop.ReadFault →
        Rose (S.faults source.old) (S.faults source.new) }
    ensures no_fault { result ≢ Err ReadStop.ReadFault →
        S.faults source.new ≡ S.faults source.old }
{
    let mut bytes = Vec::new(alloc);
    loop {
        let Ok(count) = ahead.fill(source) else {
            return Err(ReadStop::ReadFault);
        };
        if count == 0 {
            return Ok(bytes);
        }
        if count as u64 > allowance - bytes.len() as u64 {
            return Err(ReadStop::AllowancePassed);
        }
        if bytes.extend_from_slice(ahead.bytes()).is_err() {
            return Err(ReadStop::Memory);
        }
        ahead.skip(count);
    }
}
