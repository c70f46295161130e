//! The end of an input that is a game alone.
ghost use Rattle.std.specs.Prelude.{◌≡◌, ◌≢◌, ◌≤◌, [], IsTrue, OnOk, IfErr};
ghost use Rattle.lab_io.specs.Causes.{Rose};
ghost use Rattle.lab_io.specs.Reading.{Takes, IsEnd};
ghost use Rattle.lab_input.specs.GameParts.{NotEnded};

use crate::refusals::refused;
use crate::stop::Stop;
use lab_io::{LineReader, ReadStop, Source, Took};
use lab_lines::Code;
use std::alloc::Global;

/// Refuses an input that goes on after the line `done`.
pub fn check_end<S: Source>(
    alloc: Global,
    done: u32,
    reader: &mut LineReader,
    source: &mut S,
) -> Result<(), Stop>
    requires live { IsTrue reader.old.live }
    requires done { done ≤ 16777216 }
    ensures takes { OnOk result (Takes reader.old.ahead (S.left source.old) reader.new.ahead (S.left source.new) []) }
    ensures end { OnOk result (IsEnd reader.old.ahead reader.new.ahead (S.left source.new)) }
    ensures stop { IfErr result (NotEnded reader.old.ahead (S.left source.old) (S.left source.new) done) }
    ensures later { S.faults source.old ≤ S.faults source.new }
    ensures fault { result ≡ Err Stop.ReadFault → Rose (S.faults source.old) (S.faults source.new) }
    ensures no_fault { result ≢ Err Stop.ReadFault → S.faults source.new ≡ S.faults source.old }
{
    reader.allow(0);
    match reader.next(source) {
        Ok(Took::End) => Ok(()),
        Ok(Took::Line) => unreachable!(),
        Err(ReadStop::AllowancePassed) => Err(refused(alloc, done + 1, Code::ExtraLine)),
        Err(ReadStop::ReadFault) => Err(Stop::ReadFault),
        Err(ReadStop::Memory) => Err(Stop::Memory),
        Err(ReadStop::NoNewline | ReadStop::LineTooLong) => unreachable!(),
    }
}
