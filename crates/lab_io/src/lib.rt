//! Sources and sinks of bytes that count their faults: in memory and over std, whole writes, and a
//! reader of lines that takes no more than its allowance.
#![tactic(auto)]

mod line;
mod line_reader;
mod memory_sink;
mod memory_source;
mod read_ahead;
mod sink;
mod source;
mod std_streams;
mod write;

pub use line_reader::{LINE_LIMIT, LineReader, READ_AHEAD, ReadStop, Took};
pub use memory_sink::MemSink;
pub use memory_source::MemSource;
pub use sink::Sink;
pub use source::Source;
pub use std_streams::{StdSink, StdSource};
pub use write::write_whole;

/// A read or a write failed. The count of faults of what failed has risen, or stood at its greatest.
#[derive(Clone, Copy, Debug, PartialEq, Eq)]
pub struct Failed;

/// No memory was left.
#[derive(Clone, Copy, Debug, PartialEq, Eq)]
pub struct NoMemory;

#[cfg(test)]
mod tests {
    use super::*;
    use std::alloc::Global;
    use std::test::Fail;

    #[test]
    fn answers_with_ample_memory(rt: HostRuntime) -> Result<(), Fail> {
        let alloc = rt.alloc();
        let mut source = MemSource::new(vec![in alloc; 7; READ_AHEAD + 5]?, Vec::new(alloc));
        let mut reader = LineReader::start(alloc)?;
        reader.allow(65541);
        let bytes = reader.rest(&mut source)?;
        let mut sink = MemSink::new(alloc, 65541, Vec::new(alloc))?;
        write_whole(&mut sink, &bytes)?;
        let mut again = StdSource::new(sink.bytes());
        reader.allow(65541);
        write_whole(
            &mut StdSink::new(Vec::new(alloc)),
            &reader.rest(&mut again)?,
        )?;
        assert_eq!(rt; bytes.len(), 65541);
        Ok(())
    }

    #[test]
    fn stops_at_a_fault_in_mid_stream(rt: HostRuntime) -> Result<(), Fail> {
        let alloc = rt.alloc();
        let mut source = MemSource::new(vec![in alloc; 7; READ_AHEAD + 5]?, vec![in alloc; 1]?);
        let mut reader = LineReader::start(alloc)?;
        reader.allow(65541);
        assert!(rt; reader.rest(&mut source) == Err(ReadStop::ReadFault));
        let mut reader = LineReader::start(alloc)?;
        reader.allow(5);
        assert_eq!(rt; reader.rest(&mut source)?.len(), 5);
        Ok(())
    }

    #[test]
    fn gives_lines_also_across_the_end_of_the_buffer(rt: HostRuntime) -> Result<(), Fail> {
        let alloc = rt.alloc();
        let mut bytes = Vec::new(alloc);
        bytes.extend_from_slice(b"ab\n\n")?;
        bytes.extend_from_slice(&vec![in alloc; 7; READ_AHEAD]?)?;
        bytes.extend_from_slice(b"\n")?;
        let mut source = MemSource::new(bytes, Vec::new(alloc));
        let mut reader = LineReader::start(alloc)?;
        reader.allow(65541);
        assert_eq!(rt; reader.next(&mut source)?, Took::Line);
        assert!(rt; reader.line() == b"ab".as_slice());
        assert_eq!(rt; reader.next(&mut source)?, Took::Line);
        assert!(rt; reader.line().is_empty());
        assert_eq!(rt; reader.next(&mut source)?, Took::Line);
        assert_eq!(rt; reader.line().len(), READ_AHEAD);
        assert_eq!(rt; reader.next(&mut source)?, Took::End);
        assert!(rt; reader.line().is_empty());
        Ok(())
    }

    #[test]
    fn gives_the_rest_after_a_line(rt: HostRuntime) -> Result<(), Fail> {
        let alloc = rt.alloc();
        let mut bytes = Vec::new(alloc);
        bytes.extend_from_slice(b"ab\ncd")?;
        let mut source = MemSource::new(bytes, Vec::new(alloc));
        let mut reader = LineReader::start(alloc)?;
        reader.allow(5);
        assert_eq!(rt; reader.next(&mut source)?, Took::Line);
        assert!(rt; reader.rest(&mut source)?.as_slice() == b"cd".as_slice());
        Ok(())
    }

    #[test]
    fn gives_what_was_read_ahead(rt: HostRuntime) -> Result<(), Fail> {
        let alloc = rt.alloc();
        let mut bytes = Vec::new(alloc);
        bytes.extend_from_slice(b"ab\ncd\nef")?;
        let mut source = MemSource::new(bytes, Vec::new(alloc));
        let mut reader = LineReader::start(alloc)?;
        reader.allow(3);
        assert_eq!(rt; reader.next(&mut source)?, Took::Line);
        assert!(rt; reader.ahead() == b"cd\nef".as_slice());
        reader.allow(5);
        reader.give(3);
        assert!(rt; reader.line().is_empty());
        assert!(rt; reader.rest(&mut source)?.as_slice() == b"ef".as_slice());
        Ok(())
    }

    #[test]
    fn gives_the_lines_that_were_read_ahead_of_a_fault(rt: HostRuntime) -> Result<(), Fail> {
        let alloc = rt.alloc();
        let mut bytes = Vec::new(alloc);
        bytes.extend_from_slice(b"ab\ncd\n")?;
        let mut source = MemSource::new(bytes, vec![in alloc; 1]?);
        let mut reader = LineReader::start(alloc)?;
        reader.allow(6);
        assert_eq!(rt; reader.next(&mut source)?, Took::Line);
        assert!(rt; reader.line() == b"ab".as_slice());
        assert_eq!(rt; reader.next(&mut source)?, Took::Line);
        assert!(rt; reader.line() == b"cd".as_slice());
        assert!(rt; reader.next(&mut source) == Err(ReadStop::ReadFault));
        Ok(())
    }

    // What the first line of the bytes comes to.
    fn first_line(alloc: Global, bytes: Vec<u8>, allowance: u64) -> Result<Took, ReadStop> {
        let mut source = MemSource::new(bytes, Vec::new(alloc));
        let Ok(mut reader) = LineReader::start(alloc) else {
            return Err(ReadStop::Memory);
        };
        reader.allow(allowance);
        reader.next(&mut source)
    }

    #[test]
    fn stops_where_there_is_no_line(rt: HostRuntime) -> Result<(), Fail> {
        let alloc = rt.alloc();
        for (text, allowance, wanted) in [
            ("ab\n", 3, Ok(Took::Line)),
            ("ab\n", 2, Err(ReadStop::AllowancePassed)),
            ("ab", 2, Err(ReadStop::NoNewline)),
            ("ab", 1, Err(ReadStop::AllowancePassed)),
            ("", 0, Ok(Took::End)),
        ] {
            let mut bytes = Vec::new(alloc);
            bytes.extend_from_slice(text.as_bytes())?;
            assert!(rt;
                first_line(alloc, bytes, allowance) == wanted,
                "{text:?} with {allowance}"
            );
        }
        let long = vec![in alloc; 7; LINE_LIMIT + 1]?;
        assert!(rt; first_line(alloc, long, 1_048_576) == Err(ReadStop::LineTooLong));
        let long = vec![in alloc; 7; LINE_LIMIT + 1]?;
        assert!(rt; first_line(alloc, long, 1_048_575) == Err(ReadStop::AllowancePassed));
        Ok(())
    }
}
