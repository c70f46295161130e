//! A sink into memory, whose calls fail by their numbers and where its room ends.

ghost use Rattle.std.specs.Prelude.{
  ◌≡◌,
  ◌<◌,
  ◌≤◌,
  ◌↔◌,
  ◌+◌,
  ◌-◌,
  ◌^◌,
  ◌++◌,
  ◌⊎◌,
  Some,
  [],
  min,
  length,
  Contains,
  IsErr,
  IfOk,
  OnOk,
  OnErr,
};
ghost use Rattle.std.specs.Io.{WritesAtMost};
ghost use Rattle.std.specs.Io.KnownBytes.{WriteAppends};
ghost use Rattle.lab_io.specs.Causes.{HasCause};

use crate::{Failed, NoMemory, Sink};
use std::alloc::Global;
use std::marker::Model;

/// A sink into memory. It tells what was written, and takes a piece whole or fails.
#[derive(Drop)]
pub struct MemSink {
    bytes: Vec<u8>,
    room: usize,
    failing: Vec<u64>,
    call: u64,
    faults: u64,
}

impl Model for MemSink {
    ghost use Rattle.std.specs.Prelude.{◌≤◌, ◌+◌, vec_len, vec_capacity};
    ghost use Rattle.lab_io.specs.Memory.{Kept};

    ghost Value = { Kept };

    ghost view = { λ s. record {
      written = s.bytes.items;
      room = s.room;
      failing = s.failing.items;
      call = s.call;
      faults = s.faults;
    } };

    ghost invariant = { λ s. vec_len s.bytes + s.room ≤ vec_capacity s.bytes };
}

impl MemSink {
    /// A sink with room for so many bytes, all of which it takes at once. The calls with the numbers
    /// of the list fail, counted from 0; a number stays once it is the greatest of its type.
    pub fn new(alloc: Global, room: usize, failing: Vec<u64>) -> Result<MemSink, NoMemory>
        ensures { IfOk result (λ s. s ≡ record {
          written = [];
          room = room;
          failing = failing.items;
          call = 0;
          faults = 0;
        }) }
    {
        let Ok(bytes) = Vec::with_capacity(alloc, room) else {
            return Err(NoMemory);
        };
        Ok(MemSink {
            bytes,
            room,
            failing,
            call: 0,
            faults: 0,
        })
    }

    /// All that was written.
    pub fn bytes(&self) -> &[u8]
        ensures { result.now ≡ self.now.written }
    {
        self.bytes.as_slice()
    }
}

impl Sink for MemSink {
    ghost use Rattle.std.specs.Prelude.{Some};

    ghost written = { λ s. Some s.written };

    ghost faults = { λ s. s.faults };

    fn write(&mut self, piece: &[u8]) -> Result<usize, Failed>
        ensures bound { WritesAtMost result piece.now }
        ensures some { IfOk result (λ n. 0 < length piece.now → 0 < n) }
        ensures bytes { WriteAppends (Some self.old.written) (Some self.new.written)
            result piece.now }
        ensures cause { HasCause self.old.faults self.new.faults result }

        // exactly the calls of the list fail, and those with a piece longer than the room
        ensures fails { IsErr result ↔
            (Contains self.old.failing self.old.call ⊎ (self.old.room < length piece.now)) }
        ensures whole { IfOk result (λ n. n ≡ length piece.now) }
        ensures appended { OnOk result (self.new.written ≡ self.old.written ++ piece.now) }
        ensures room { OnOk result (self.new.room + length piece.now ≡ self.old.room) }
        ensures no_fault { OnOk result (self.new.faults ≡ self.old.faults) }
        ensures one_fault { OnErr result
            (self.new.faults ≡ min (self.old.faults + 1) (2 ^ 64 - 1)) }
        ensures none_written { OnErr result (self.new.written ≡ self.old.written) }
        ensures same_room { OnErr result (self.new.room ≡ self.old.room) }
        ensures call { self.new.call ≡ min (self.old.call + 1) (2 ^ 64 - 1) }
        ensures list { self.new.failing ≡ self.old.failing }
    {
        let fails = self.failing.contains(&self.call) || self.room < piece.len();
        self.call = self.call.saturating_add(1);
        if fails || self.bytes.extend_from_slice(piece).is_err() {
            self.faults = self.faults.saturating_add(1);
            return Err(Failed);
        }
        self.room -= piece.len();
        Ok(piece.len())
    }
}
