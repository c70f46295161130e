//! Bytes that were read ahead of those given, in a buffer of fixed length.

ghost use Rattle.std.specs.Prelude.{◌≡◌, ◌≢◌, ◌≤◌, [], drop, length, IfOk, OnOk, OnErr};
ghost use Rattle.std.specs.Io.KnownBytes.{IsAtEnd};
ghost use Rattle.lab_io.specs.Causes.{HasCause};
ghost use Rattle.lab_io.specs.Reading.{Takes};

use crate::line_reader::READ_AHEAD;
use crate::{Failed, NoMemory, Source};
use std::alloc::Global;
use std::marker::Model;

/// The bytes read ahead and not yet given, at most READ_AHEAD of them.
#[derive(Drop)]
pub struct ReadAhead {
    buffer: Vec<u8>,
    from: usize,
    to: usize,
}

impl Model for ReadAhead {
    ghost use Rattle.std.specs.Prelude.{◌≡◌, ◌≤◌, ℕ, List, vec_len, slice_range};
    ghost use Rattle.lab_io.specs.declared.line_reader.TheConstants.{READ_AHEAD};

    ghost Value = { List ℕ };

    ghost view = { λ a. slice_range a.buffer.items a.from a.to };

    ghost invariant = { λ a.
        (vec_len a.buffer ≡ READ_AHEAD) × (a.from ≤ a.to) × (a.to ≤ READ_AHEAD) };
}

impl ReadAhead {
    /// No bytes yet.
    pub fn new(alloc: Global) -> Result<ReadAhead, NoMemory>
        ensures { IfOk result (λ a. a ≡ []) }
    {
        let Ok(buffer) = vec![in alloc; 0; READ_AHEAD] else {
            return Err(NoMemory);
        };
        Ok(ReadAhead {
            buffer,
            from: 0,
            to: 0,
        })
    }

    /// The bytes, in order.
    pub fn bytes(&self) -> &[u8]
        ensures bytes { result.now ≡ self.now }
        ensures short { length result.now ≤ READ_AHEAD }
    {
        &self.buffer[self.from..self.to]
    }

    /// Leaves out the first bytes, which were given.
    pub fn skip(&mut self, count: usize)
        requires { count ≤ length self.old }
        ensures { self.new ≡ drop count self.old }
    {
        self.from += count;
    }

    /// Reads once where there are no bytes, and answers how many there are then: none only at the
    /// end of the source. Where there are some, it leaves them and the source as they were.
    pub fn fill<S: Source>(&mut self, source: &mut S) -> Result<usize, Failed>
        ensures bytes { Takes self.old (S.left source.old) self.new (S.left source.new) [] }
        ensures count { IfOk result (λ n. n ≡ length self.new) }
        ensures end { IfOk result (λ n. n ≡ 0 → IsAtEnd (S.left source.new)) }
        ensures short { length self.new ≤ READ_AHEAD }
        ensures same_ahead { self.old ≢ [] → self.new ≡ self.old }
        ensures same_source { self.old ≢ [] → source.new ≡ source.old }
        ensures none { OnErr result (self.new ≡ []) }
        ensures cause { HasCause (S.faults source.old) (S.faults source.new) result }
        ensures no_fault { OnOk result (S.faults source.new ≡ S.faults source.old) }
    {
        if self.from < self.to {
            return Ok(self.to - self.from);
        }
        let count = source.read(&mut self.buffer)?;
        self.from = 0;
        self.to = count;
        Ok(count)
    }
}
