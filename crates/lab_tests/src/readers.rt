//! Whether a reader of lines may still read.
use lab_io::{LineReader, MemSource, ReadStop, Took};
use std::test::Fail;

#[test]
fn lives_until_a_read_fault(rt: HostRuntime) -> Result<(), Fail> {
    let alloc = rt.alloc();
    let mut bytes = Vec::new(alloc);
    bytes.extend_from_slice(b"ab\ncd\n")?;
    let mut source = MemSource::new(bytes, vec![in alloc; 1; 1]?);
    let mut reader = LineReader::start(alloc)?;
    assert!(rt; reader.live());
    reader.allow(1000);
    assert_eq!(rt; reader.next(&mut source)?, Took::Line);
    assert_eq!(rt; reader.next(&mut source)?, Took::Line);
    assert!(rt; reader.live());
    assert_eq!(rt; reader.next(&mut source), Err(ReadStop::ReadFault));
    assert!(rt; !reader.live());
    Ok(())
}
