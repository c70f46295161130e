//! A source over any reader of std, and a sink over any writer. Neither tells its bytes, but what the
//! reader or writer itself says of them holds.

ghost use Rattle.std.specs.Prelude.{◌≡◌, ◌<◌, ◌+◌, ◌-◌, ◌^◌, None, Some, Ok, min, length, IfOk, IsErr, IfSome, IfNone, OnOk, OnErr};
ghost use Rattle.std.specs.Io.{ReadsAtMost, WritesAtMost};
ghost use Rattle.std.specs.Io.KnownBytes.{ReadConsumes, WriteAppends};
ghost use Rattle.lab_io.specs.Causes.{HasCause};

use crate::{Failed, Sink, Source};
use std::io::{Read, Write};
use std::marker::Model;

/// A source over a reader of std. Each read that it fails counts as a fault.
#[derive(Drop)]
pub struct StdSource<R: Read + Drop> {
    inner: R,
    faults: u64,
}

impl<R: Read + Drop> Model for StdSource<R> {
    ghost use Rattle.lab_io.specs.Memory.{Counted};

    ghost Value = { Counted R };

    ghost view = { λ s. record { inner = s.inner; faults = s.faults } };
}

impl<R: Read + Drop> StdSource<R> {
    /// A source over this reader, with no fault yet.
    pub fn new(inner: R) -> StdSource<R>
        ensures { result ≡ record { inner = inner; faults = 0 } }
    {
        StdSource { inner, faults: 0 }
    }
}

impl<R: Read + Drop> Source for StdSource<R> {
    ghost use Rattle.std.specs.Prelude.{None};

    ghost left = { λ s. None };

    ghost faults = { λ s. s.faults };

    fn read(&mut self, buf: &mut [u8]) -> Result<usize, Failed>
        ensures bound { ReadsAtMost result buf.new }
        ensures bytes { ReadConsumes None None result buf.new }
        ensures inner { ReadConsumes (R.remaining self.old.inner) (R.remaining self.new.inner)
            result buf.new }
        ensures cause { HasCause self.old.faults self.new.faults result }
        ensures no_fault { OnOk result (self.new.faults ≡ self.old.faults) }
        ensures one_fault { OnErr result
            (self.new.faults ≡ min (self.old.faults + 1) (2 ^ 64 - 1)) }
    {
        let count = self.inner.read(buf).ok();
        counted(count, &mut self.faults)
    }
}

/// A sink over a writer of std. Each write that it fails counts as a fault, and so does one that
/// takes nothing of a piece with bytes.
#[derive(Drop)]
pub struct StdSink<W: Write + Drop> {
    inner: W,
    faults: u64,
}

impl<W: Write + Drop> Model for StdSink<W> {
    ghost use Rattle.lab_io.specs.Memory.{Counted};

    ghost Value = { Counted W };

    ghost view = { λ s. record { inner = s.inner; faults = s.faults } };
}

impl<W: Write + Drop> StdSink<W> {
    /// A sink over this writer, with no fault yet.
    pub fn new(inner: W) -> StdSink<W>
        ensures { result ≡ record { inner = inner; faults = 0 } }
    {
        StdSink { inner, faults: 0 }
    }
}

impl<W: Write + Drop> Sink for StdSink<W> {
    ghost use Rattle.std.specs.Prelude.{None};

    ghost written = { λ s. None };

    ghost faults = { λ s. s.faults };

    fn write(&mut self, piece: &[u8]) -> Result<usize, Failed>
        ensures bound { WritesAtMost result piece.now }
        ensures some { IfOk result (λ n. 0 < length piece.now → 0 < n) }
        ensures bytes { WriteAppends None None result piece.now }
        ensures inner { WriteAppends (W.contents self.old.inner) (W.contents self.new.inner)
            result piece.now }
        ensures cause { HasCause self.old.faults self.new.faults result }
        ensures no_fault { OnOk result (self.new.faults ≡ self.old.faults) }
        ensures one_fault { OnErr result
            (self.new.faults ≡ min (self.old.faults + 1) (2 ^ 64 - 1)) }
    {
        let count = self.inner.write(piece).ok();
        counted(taken_of(piece, count), &mut self.faults)
    }
}

// What a write took of a piece; none where it failed, or took nothing of a piece with bytes.
fn taken_of(piece: &[u8], count: Option<usize>) -> Option<usize>
    ensures nothing { count ≡ Some 0 → 0 < length piece.now → result ≡ None }
    ensures count { (count ≡ Some 0 → length piece.now ≡ 0) → result ≡ count }
{
    if !piece.is_empty() && count == Some(0) {
        None
    } else {
        count
    }
}

// The count of a call that did not fail; a call that did is one fault more.
fn counted(count: Option<usize>, faults: &mut u64) -> Result<usize, Failed>
    ensures taken { IfSome count (λ n. (result ≡ Ok n) × (faults.new ≡ faults.old)) }
    ensures failed { IfNone count
        (IsErr result × (faults.new ≡ min (faults.old + 1) (2 ^ 64 - 1))) }
    ensures cause { HasCause faults.old faults.new result }
{
    match count {
        Some(count) => Ok(count),
        None => {
            *faults = faults.saturating_add(1);
            Err(Failed)
        }
    }
}
