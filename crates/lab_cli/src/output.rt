//! Bytes that a mode writes.
ghost use Rattle.std.specs.Prelude.{◌≡◌, ◌≢◌, ◌≤◌, Ok, OnOk, OnErr};
ghost use Rattle.std.specs.Io.KnownBytes.{Appends};
ghost use Rattle.lab_io.specs.Causes.{AppendsFront, Rose};

use lab_input::Stop;
use lab_io::{Failed, Sink, write_whole};

/// Writes bytes. It stops only where the sink fails.
pub fn write_all<K: Sink>(sink: &mut K, bytes: &[u8]) -> Result<(), Stop>
    ensures whole { OnOk result (Appends (K.written sink.old) (K.written sink.new) bytes.now) }
    ensures front { OnErr result (AppendsFront (K.written sink.old) (K.written sink.new) bytes.now) }
    ensures only { result ≢ Ok tt → result ≡ Err Stop.WriteFault }
    ensures later { K.faults sink.old ≤ K.faults sink.new }
    ensures fault { result ≡ Err Stop.WriteFault → Rose (K.faults sink.old) (K.faults sink.new) }
    ensures no_fault { result ≢ Err Stop.WriteFault → K.faults sink.new ≡ K.faults sink.old }
{
    match write_whole(sink, bytes) {
        Ok(()) => Ok(()),
        Err(Failed) => Err(Stop::WriteFault),
    }
}
