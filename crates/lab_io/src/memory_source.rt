//! A source over bytes in memory, whose calls fail by their numbers.

ghost use Rattle.std.specs.Prelude.{
  ◌≡◌,
  ◌≤◌,
  ◌↔◌,
  ◌+◌,
  ◌-◌,
  ◌^◌,
  Some,
  min,
  take,
  length,
  Contains,
  IsErr,
  IfOk,
  OnOk,
  OnErr,
};
ghost use Rattle.std.specs.Io.{ReadsAtMost};
ghost use Rattle.std.specs.Io.KnownBytes.{ReadConsumes};
ghost use Rattle.lab_io.specs.Causes.{HasCause};

use crate::{Failed, Source};
use std::marker::Model;

/// A source over bytes in memory. It tells its bytes, and takes no memory.
#[derive(Drop)]
pub struct MemSource {
    bytes: Vec<u8>,
    at: usize,
    failing: Vec<u64>,
    call: u64,
    faults: u64,
}

impl Model for MemSource {
    ghost use Rattle.std.specs.Prelude.{◌≤◌, vec_len, drop};
    ghost use Rattle.lab_io.specs.Memory.{Held};

    ghost Value = { Held };

    ghost view = { λ s. record {
      left = drop s.at s.bytes.items;
      failing = s.failing.items;
      call = s.call;
      faults = s.faults;
    } };

    ghost invariant = { λ s. s.at ≤ vec_len s.bytes };
}

impl MemSource {
    /// A source of these bytes. The calls with the numbers of the list fail, counted from 0; a
    /// number stays once it is the greatest of its type.
    pub fn new(bytes: Vec<u8>, failing: Vec<u64>) -> MemSource
        ensures { result ≡ record {
          left = bytes.items;
          failing = failing.items;
          call = 0;
          faults = 0;
        } }
    {
        MemSource {
            bytes,
            at: 0,
            failing,
            call: 0,
            faults: 0,
        }
    }
}

impl Source for MemSource {
    ghost use Rattle.std.specs.Prelude.{Some};

    ghost left = { λ s. Some s.left };

    ghost faults = { λ s. s.faults };

    fn read(&mut self, buf: &mut [u8]) -> Result<usize, Failed>
        ensures bound { ReadsAtMost result buf.new }
        ensures bytes { ReadConsumes (Some self.old.left) (Some self.new.left) result buf.new }
        ensures cause { HasCause self.old.faults self.new.faults result }

        // exactly the calls of the list fail
        ensures fails { IsErr result ↔ Contains self.old.failing self.old.call }
        ensures count { IfOk result (λ n. n ≡ min (length buf.old) (length self.old.left)) }
        ensures no_fault { OnOk result (self.new.faults ≡ self.old.faults) }
        ensures one_fault { OnErr result
            (self.new.faults ≡ min (self.old.faults + 1) (2 ^ 64 - 1)) }
        ensures none_taken { OnErr result (self.new.left ≡ self.old.left) }
        ensures call { self.new.call ≡ min (self.old.call + 1) (2 ^ 64 - 1) }
        ensures list { self.new.failing ≡ self.old.failing }
    {
        let fails = self.failing.contains(&self.call);
        self.call = self.call.saturating_add(1);
        if fails {
            self.faults = self.faults.saturating_add(1);
            return Err(Failed);
        }
        let count = copy_front(&self.bytes[self.at..], buf);
        self.at += count;
        Ok(count)
    }
}

// Copies as many bytes as both have.
fn copy_front(from: &[u8], buf: &mut [u8]) -> usize
    ensures count { result ≡ min (length buf.old) (length from.now) }
    ensures copied { take result buf.new ≡ take result from.now }
    ensures len { length buf.new ≡ length buf.old }
{
    let count = from.len().min(buf.len());
    buf[..count].copy_from_slice(&from[..count]);
    count
}
