//! A buffer of fixed length in which a line is gathered, so that one that fits is written at once.

ghost use Rattle.std.specs.Prelude.{
  ◌≡◌,
  ◌+◌,
  ◌≤◌,
  [],
  ◌∷◌,
  ◌++◌,
  length,
  take,
  OnOk,
  OnErr,
};
ghost use Rattle.std.specs.Io.KnownBytes.{Appends};
ghost use Rattle.lab_io.specs.Causes.{HasCause, AppendsFront};
ghost use Rattle.lab_lines.specs.Lines.{Adds};

use lab_io::{Failed, Sink, write_whole};
use std::marker::Model;

/// How many bytes of a line are gathered.
pub const ROOM: usize = 512;

/// The first bytes of a line, at most ROOM of them.
#[derive(Drop)]
pub struct LineBuffer {
    bytes: [u8; ROOM],
    len: usize,
}

impl Model for LineBuffer {
    ghost use Rattle.std.specs.Prelude.{◌≤◌, ℕ, List, take};
    ghost use Rattle.lab_lines.specs.declared.line_buffer.TheConstants.{ROOM};

    ghost Value = { List ℕ };

    ghost view = { λ b. take b.len b.bytes };

    ghost invariant = { λ b. b.len ≤ ROOM };
}

impl LineBuffer {
    /// No bytes yet.
    pub fn new() -> LineBuffer
        ensures { result ≡ [] }
    {
        LineBuffer {
            bytes: [0; ROOM],
            len: 0,
        }
    }

    /// Adds a piece for which there is room.
    pub fn push(&mut self, piece: &[u8])
        requires { length self.old + length piece.now ≤ ROOM }
        ensures { self.new ≡ self.old ++ piece.now }
    {
        let end = self.len + piece.len();
        self.bytes[self.len..end].copy_from_slice(piece);
        self.len = end;
    }

    /// Adds a piece; where there is no room for it the bytes so far are written first.
    pub fn add<K: Sink>(&mut self, sink: &mut K, piece: &[u8]) -> Result<(), Failed>
        requires { length piece.now ≤ ROOM }
        ensures added { OnOk result
            (Adds self.old self.new (K.written sink.old) (K.written sink.new) piece.now) }
        ensures front { OnErr result
            (AppendsFront (K.written sink.old) (K.written sink.new) (self.old ++ piece.now)) }
        ensures cause { HasCause (K.faults sink.old) (K.faults sink.new) result }
        ensures no_fault { OnOk result (K.faults sink.new ≡ K.faults sink.old) }
    {
        if piece.len() > ROOM - self.len {
            write_whole(sink, self.bytes())?;
            self.len = 0;
        }
        self.push(piece);
        Ok(())
    }

    /// Writes the line with the rest of it, which may be of any length, and a line feed: by one
    /// write where all of it fits.
    pub fn finish<K: Sink>(mut self, sink: &mut K, rest: &[u8]) -> Result<(), Failed>
        ensures whole { OnOk result
            (Appends (K.written sink.old) (K.written sink.new) (self ++ (rest.now ++ 10 ∷ []))) }
        ensures front { OnErr result (AppendsFront (K.written sink.old) (K.written sink.new)
            (self ++ (rest.now ++ 10 ∷ []))) }
        ensures cause { HasCause (K.faults sink.old) (K.faults sink.new) result }
        ensures no_fault { OnOk result (K.faults sink.new ≡ K.faults sink.old) }
    {
        if rest.len() < ROOM - self.len {
            self.push(rest);
            self.push(b"\n");
            return write_whole(sink, self.bytes());
        }
        write_whole(sink, self.bytes())?;
        write_whole(sink, rest)?;
        write_whole(sink, b"\n")
    }

    // The bytes so far.
    fn bytes(&self) -> &[u8]
        ensures { result.now ≡ self.now }
    {
        &self.bytes[..self.len]
    }
}
